//! Laws of unused labels: each is the contract of a function that does nothing.
ghost use Rattle.std.specs.Prelude.{◌≡◌, ℕ, List, [], ◌++◌, Option, None};
ghost use Rattle.semantic_tree.specs.Faults.{first_fault};
ghost use Rattle.semantic_tree.specs.Forest.{Forest};
ghost use Rattle.semantic_tree.specs.Tree.{Tree};
ghost use Rattle.semantic_tree.specs.declared.node.Node.{Node};
ghost use Rattle.semantic_model.specs.Label.{unused_in, unused_labels};
ghost use Rattle.semantic_model.specs.Place.{Place, OpenScope};
ghost use Rattle.semantic_model.specs.Step.{Step, steps, steps_below, steps_of};
ghost use Rattle.unused_labels.specs.LabelStack.{LabelLists, no_labels};
ghost use Rattle.unused_labels.specs.Labelling.{node_entered, node_left, walked_below, used_by};
ghost use Rattle.unused_labels.specs.LabelSteps.{labelling, labelling_all};

/// A walk that comes to each labelled statement, names the label of each jump, and leaves the statement with its node,
/// has the unused labels of the program in its list in the end, in order. After each part of it the labels that jumps
/// of the part name are used, and the list has the unused labels of the part.
pub fn a_walk_finds_the_unused_labels()
    ensures part { (f : Forest) (w : LabelLists)
        → walked_below f w
        ≡ record { around = used_by f w.around; unused = w.unused ++ unused_in f } }
    ensures program { (root : Node)
        → walked_below root.children no_labels
        ≡ record { around = []; unused = unused_labels root } }
{}

/// The steps of a walk note what the walk notes, after each part of it.
pub fn steps_find_the_unused_labels()
    ensures lists { (w : LabelLists) (xs ys : List Step)
        → labelling_all w (xs ++ ys) ≡ labelling_all (labelling_all w xs) ys }
    ensures below { (p : Place) (own : Option OpenScope) (n cursor : ℕ) (f : Forest)
        (w : LabelLists) → labelling_all w (steps_below p own n cursor f) ≡ walked_below f w }
    ensures node { (p : Place) (n : ℕ) (w : LabelLists)
        → labelling_all w (steps_of p n)
        ≡ node_left p.node (walked_below p.node.children (node_entered p.node w)) }
    ensures program { (p : Tree) → first_fault p ≡ None
        → labelling_all no_labels (steps p)
        ≡ record { around = []; unused = unused_labels p.root } }
{}
