//! Laws over the tables of programs.
ghost use Rattle.std.specs.Prelude.{◌≡◌, None};
ghost use Rattle.semantic_tree.specs.Faults.{first_fault};
ghost use Rattle.semantic_tree.specs.Tree.{Tree, IsNumbered};
ghost use Rattle.semantic_model.specs.Label.{unused_labels};
ghost use Rattle.semantic_model.specs.TablesOf.{tables_of};
ghost use Rattle.table_bounds.specs.Tellable.{AreNumbers, AreTellable};

/// In the tables of a numbered program without a fault no number has more than 64 bits, all flags have names, each scope
/// has a list of bindings and each symbol one of uses, and no list of redeclarations is empty. Its unused labels are
/// numbers of no more than 64 bits, too.
pub fn tables_are_bounded()
    ensures tables { (p : Tree) → first_fault p ≡ None → IsNumbered p.root
        → AreTellable (tables_of p) }
    ensures labels { (p : Tree) → first_fault p ≡ None → IsNumbered p.root
        → AreNumbers (unused_labels p.root) }
{}
