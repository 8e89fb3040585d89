//! Laws of what a walk notes: each is the contract of a function that does nothing.
ghost use Rattle.std.specs.Prelude.{◌≡◌, Bool, [], None, if◌then◌else◌};
ghost use Rattle.semantic_tree.specs.Faults.{first_fault};
ghost use Rattle.semantic_tree.specs.Tree.{Tree};
ghost use Rattle.semantic_model.specs.Class.{classes};
ghost use Rattle.semantic_model.specs.Label.{unused_labels};
ghost use Rattle.class_table.specs.Lists.{no_classes};
ghost use Rattle.class_table.specs.Told.{lists_told};
ghost use Rattle.walk_notes.specs.NoteLists.{nothing_noted, noted_over};

/// A walk over a program from its root has its classes in the end, if it notes them, and the labels that no jump names.
pub fn a_walk_notes_a_program()
    ensures classes { (on : Bool) (p : Tree) → first_fault p ≡ None
        → (noted_over [] p.root (nothing_noted on)).classes.classes
        ≡ (if on then lists_told (classes p.root) else no_classes) }
    ensures labels { (on : Bool) (p : Tree) → first_fault p ≡ None
        → (noted_over [] p.root (nothing_noted on)).labels
        ≡ record { around = []; unused = unused_labels p.root } }
{}
