//! Laws over the names of symbols, and of the nodes that declare or use them.
ghost use Rattle.std.specs.Prelude.{◌≡◌, None};
ghost use Rattle.semantic_tree.specs.Faults.{first_fault};
ghost use Rattle.semantic_tree.specs.Tree.{Tree, IsNumbered};
ghost use Rattle.program_laws.specs.SymbolNames.{TiesHaveNames, DeclarationsHaveNames, NodesHaveNames, TiedNodesHaveNames};

/// A reference that is tied to a symbol has the symbol's name.
pub fn ties_have_names()
    ensures { (p : Tree) → first_fault p ≡ None → TiesHaveNames p }
{}

/// The symbol of each declaration has the declared name.
pub fn declarations_have_names()
    ensures { (p : Tree) → first_fault p ≡ None → DeclarationsHaveNames p }
{}

/// In a numbered program a node to which a symbol belongs is a binding identifier with the symbol's name, or an enum
/// member, and a node that is tied to a symbol is an identifier reference with its name.
pub fn nodes_have_names()
    ensures belonging { (p : Tree) → first_fault p ≡ None → IsNumbered p.root → NodesHaveNames p }
    ensures tied { (p : Tree) → first_fault p ≡ None → IsNumbered p.root → TiedNodesHaveNames p }
{}
