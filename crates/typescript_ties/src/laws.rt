//! Laws over what TypeScript binds and what the tables say.
ghost use Rattle.std.specs.Prelude.{◌≡◌, true, false, None, []};
ghost use Rattle.semantic_syntax.specs.SourceTypes.{is_typescript};
ghost use Rattle.semantic_syntax.specs.Tables.{Name};
ghost use Rattle.semantic_tree.specs.Faults.{first_fault};
ghost use Rattle.semantic_tree.specs.Tree.{Tree, IsNumbered};
ghost use Rattle.tangle_model.specs.Tangled.{tangle_reasons};
ghost use Rattle.typescript_ties.specs.DeclaredNames.{NamesAreDeclared, IsUntiedEverywhere, MeansNothing, is_declared_in};
ghost use Rattle.typescript_ties.specs.ResolvedTies.{parting_uses};
ghost use Rattle.typescript_ties.specs.SimpleNames.{is_common, IsSimpleName};
ghost use Rattle.typescript_ties.specs.SingleNames.{IsSingleName, is_single_name};
ghost use Rattle.typescript_ties.specs.TriedNames.{is_simple_name};
ghost use Rattle.typescript_ties.specs.SeenTogether.{IsPlainlyDeclared, AreTiedTogether};

/// At each node of a program the names that the tables are told to declare are those that the language declares, each by its
/// identifier; but for the parameters of index signatures, of which the tables know nothing.
pub fn names_are_declared()
    ensures { (p : Tree) → first_fault p ≡ None → NamesAreDeclared p }
{}

/// Tables and language agree on a name that no node of the program declares: it means nothing, and no reference of it is tied.
pub fn undeclared_names_are_free()
    ensures nothing { (p : Tree) (name : Name) → is_declared_in p name ≡ false
        → MeansNothing p name }
    ensures untied { (p : Tree) (name : Name) → first_fault p ≡ None
        → is_declared_in p name ≡ false → IsUntiedEverywhere p name }
{}

/// Each reference of a name that is declared plainly, by no `var`, no function that leaves its block and no catch clause, is tied to the
/// symbol of the first scope outward whose declarations of the name, together, fit its way; of a scope whose header holds it, those
/// outside of the body.
pub fn plain_names_are_tied_together()
    ensures { (p : Tree) (name : Name) → first_fault p ≡ None → IsPlainlyDeclared p name
        → AreTiedTogether p name }
{}

/// Tables and language agree on each reference of a name that isn't tangled and is simple, in a program of TypeScript without `with`:
/// the reference is tied to the symbol of all declarations that the nearest container has of the name which has one in a meaning
/// that is asked for, and free exactly where none has. Whether a name is simple can be tried.
pub fn untangled_names_are_tied_as_they_mean()
    ensures agree { (p : Tree) (name : Name) → first_fault p ≡ None → is_common p ≡ true
        → is_typescript p.source_type ≡ true → IsNumbered p.root → tangle_reasons p name ≡ []
        → IsSimpleName p name → parting_uses p name ≡ [] }
    ensures tried { (p : Tree) (name : Name) → first_fault p ≡ None → is_common p ≡ true
        → is_typescript p.source_type ≡ true → IsNumbered p.root → tangle_reasons p name ≡ []
        → is_simple_name p name ≡ true → parting_uses p name ≡ [] }
{}

/// Tables and language agree on each reference of a name that isn't tangled and has one symbol, be it declared by `infer`, by a catch
/// clause or by a function in a block of sloppy code, where each reference of it means something. Whether a name is such a one can be
/// tried.
pub fn single_names_are_tied_as_they_mean()
    ensures agree { (p : Tree) (name : Name) → first_fault p ≡ None → is_common p ≡ true
        → is_typescript p.source_type ≡ true → IsNumbered p.root → tangle_reasons p name ≡ []
        → IsSingleName p name → parting_uses p name ≡ [] }
    ensures tried { (p : Tree) (name : Name) → first_fault p ≡ None → is_common p ≡ true
        → is_typescript p.source_type ≡ true → IsNumbered p.root → tangle_reasons p name ≡ []
        → is_single_name p name ≡ true → parting_uses p name ≡ [] }
{}
