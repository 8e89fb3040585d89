//! Laws of counts: each is the contract of a function that does nothing.
ghost use Rattle.std.specs.Prelude.{◌≡◌, ◌≤◌, ◌++◌, List, None, length};
ghost use Rattle.semantic_kinds.specs.declared.role.Role.TheVariants as role;
ghost use Rattle.semantic_tree.specs.Children.{single};
ghost use Rattle.semantic_tree.specs.Faults.{first_fault};
ghost use Rattle.semantic_tree.specs.Tree.{Tree, IsNumbered};
ghost use Rattle.semantic_model.specs.Inside.{scopes_in};
ghost use Rattle.semantic_model.specs.Event.{written_declarations};
ghost use Rattle.semantic_model.specs.Step.{Step, steps};
ghost use Rattle.semantic_model.specs.TablesOf.{tables_of};
ghost use Rattle.walk_model.specs.WalkState.{nothing_made};
ghost use Rattle.walk_model.specs.Walks.{after_all};
ghost use Rattle.semantic_tree.specs.KindCounts.{how_many};
ghost use Rattle.walk_model.specs.Counted.{declares_symbol, is_reference};
ghost use Rattle.walk_model.specs.Room.{HasRoom};

/// The tables of a program have a scope for each node that opens one, a reference for each identifier reference, and no
/// more symbols than the program has binding identifiers and enum members.
pub fn tables_are_counted()
    ensures scopes { (p : Tree)
        → length (tables_of p).scopes ≡ scopes_in (single role.Root p.root) }
    ensures references { (p : Tree)
        → length (tables_of p).references ≡ how_many is_reference (single role.Root p.root) }
    ensures symbols { (p : Tree) → first_fault p ≡ None → IsNumbered p.root
        → length (tables_of p).symbols ≤ how_many declares_symbol (single role.Root p.root) }
{}

/// Ids never run out. At each place of the walk over a program there is an id for each scope, symbol and reference that
/// is made, and for those that the steps behind it still make.
pub fn ids_suffice()
    ensures { (p : Tree) → first_fault p ≡ None → IsNumbered p.root → (done more : List Step)
        → steps p ≡ done ++ more
        → HasRoom (after_all (written_declarations (steps p)) nothing_made done).tables more }
{}
