//! Laws over ties and symbols. Each holds of every program without a fault.
ghost use Rattle.std.specs.Prelude.{◌≡◌, None};
ghost use Rattle.semantic_tree.specs.Faults.{first_fault};
ghost use Rattle.semantic_tree.specs.Tree.{Tree, IsNumbered};
ghost use Rattle.binding_laws.specs.SeenDeclarations.{TiesAreOutward};
ghost use Rattle.binding_laws.specs.OneSymbol.{OneSymbolEach, VarScopesKeepNames, SymbolsAreAtNodes, ConflictsAreTold};

/// Each reference is tied to the first symbol outward that it may mean, or is free. Of a scope whose header holds it,
/// what counts is bound by the declarations that don't stand in the scope's body, with the flags that these give; of
/// any other scope, what it binds in the end.
pub fn references_see_declarations()
    ensures { (p : Tree) → first_fault p ≡ None → TiesAreOutward p }
{}

/// In a numbered program the symbol of a declaration, of which the other laws speak, is what an analysis tells of its
/// identifier.
pub fn declarations_have_the_symbols_of_their_nodes()
    ensures { (p : Tree) → first_fault p ≡ None → IsNumbered p.root → SymbolsAreAtNodes p }
{}

/// The declarations of one name in one scope all have one symbol, where none asks another scope first: `let`, classes,
/// imports and types, functions, also those that move out of their block then, and a `var` at the top of its function.
/// Only a `var` that passes the scope may bring another there, or a plain catch name. In a scope where `var` goes, as a
/// function's, a module's or the program's, none does. Of two of them the later one is a conflict where it excludes what
/// the earlier one is.
pub fn declarations_of_one_scope_have_one_symbol()
    ensures one { (p : Tree) → first_fault p ≡ None → OneSymbolEach p }
    ensures kept { (p : Tree) → first_fault p ≡ None → VarScopesKeepNames p }
    ensures told { (p : Tree) → first_fault p ≡ None → ConflictsAreTold p }
{}
