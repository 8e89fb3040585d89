//! Laws over the diagnostics, the classes and the nodes of programs.
ghost use Rattle.std.specs.Prelude.{◌≡◌, Bool, None};
ghost use Rattle.std.specs.List.{AllByRecursion};
ghost use Rattle.semantic_tree.specs.Faults.{first_fault};
ghost use Rattle.semantic_tree.specs.Tree.{Tree, IsNumbered};
ghost use Rattle.semantic_model.specs.Class.{classes};
ghost use Rattle.semantic_model.specs.NodeTable.{nodes};
ghost use Rattle.semantic_model.specs.Step.{steps};
ghost use Rattle.check_model.specs.DiagnosticsOf.{diagnostics_of};
ghost use Rattle.table_bounds.specs.Tellable.{IsTellableDiagnostic, AreTellableClasses, IsTellableNode};

/// Of each diagnostic of a numbered program without a fault, an early error or not, the code is a word without gaps, and the
/// places are given in numbers of no more than 64 bits.
pub fn diagnostics_are_bounded()
    ensures { (p : Tree) (checks : Bool) → first_fault p ≡ None → IsNumbered p.root
        → AllByRecursion IsTellableDiagnostic (diagnostics_of checks p) }
{}

/// Of the classes of a numbered program without a fault, their elements and the uses of private names in them, no number
/// has more than 64 bits, and all flags have names.
pub fn classes_are_bounded()
    ensures { (p : Tree) → first_fault p ≡ None → IsNumbered p.root
        → AreTellableClasses (classes p.root) }
{}

/// The scope where a node of a numbered program without a fault stands, and its parent, are numbers of no more than 64
/// bits.
pub fn nodes_are_bounded()
    ensures { (p : Tree) → first_fault p ≡ None → IsNumbered p.root
        → AllByRecursion IsTellableNode (nodes (steps p)) }
{}
