//! Laws over the walk. Each holds of every program without a fault.
ghost use Rattle.std.specs.Prelude.{◌≡◌, None};
ghost use Rattle.semantic_tree.specs.Faults.{first_fault};
ghost use Rattle.semantic_tree.specs.Tree.{Tree, IsNumbered};
ghost use Rattle.semantic_model.specs.TablesOf.{tables_of};
ghost use Rattle.walk_model.specs.Walks.{walked};
ghost use Rattle.walk_model.specs.Agreement.{HasDeclared, HasOpened, HasReferred, NotesOnce};

/// The walk declares what the definitions say.
/// Its bindings, symbols and symbols without side effects are those of the program's tables, and it notes the same
/// conflicts in the same order.
pub fn walk_declares()
    ensures { (p : Tree) → first_fault p ≡ None → HasDeclared p (walked p) }
{}

/// The walk opens what the definitions say.
/// Its scopes are those of the program's tables, with their flags: `DirectEval` stands in each scope around a call.
pub fn walk_opens()
    ensures { (p : Tree) → first_fault p ≡ None → HasOpened p (walked p) }
{}

/// The walk refers as the definitions say.
/// Its references are those of the program's tables, with the same symbols and flags, and stand in the same lists of
/// uses and free references in the same order, though it settles each as soon as the headers around it have ended.
pub fn walk_refers()
    ensures { (p : Tree) → first_fault p ≡ None → HasReferred p (walked p) }
{}

/// The walk gives the tables of the program, whole.
pub fn walk_gives_tables()
    ensures { (p : Tree) → first_fault p ≡ None → (walked p).tables ≡ tables_of p }
{}

/// In a numbered program each scope, each symbol's identifier and each reference has a node of its own, and the walk
/// notes it once.
pub fn walk_notes_once()
    ensures { (p : Tree) → first_fault p ≡ None → IsNumbered p.root → NotesOnce p (walked p) }
{}
