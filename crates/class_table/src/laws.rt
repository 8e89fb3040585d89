//! Laws of the table of classes: each is the contract of a function that does nothing.
ghost use Rattle.std.specs.Prelude.{◌≡◌, ◌≤◌, ℕ, List, ◌++◌, Option, None, true, false, length, slice_get};
ghost use Rattle.std.specs.Option.{option_and_then};
ghost use Rattle.semantic_kinds.specs.declared.kind.AstType.{AstType};
ghost use Rattle.semantic_tree.specs.Faults.{first_fault};
ghost use Rattle.semantic_tree.specs.Forest.{Forest, count};
ghost use Rattle.semantic_tree.specs.Tree.{Tree};
ghost use Rattle.semantic_tree.specs.declared.node.Node.{Node};
ghost use Rattle.semantic_model.specs.Class.{Class, classes, classes_below, uses_below};
ghost use Rattle.semantic_model.specs.Element.{elements_of};
ghost use Rattle.semantic_model.specs.Place.{Place, OpenScope};
ghost use Rattle.semantic_model.specs.Step.{Step, steps, steps_below, steps_of};
ghost use Rattle.class_table.specs.Bodies.{end_rightly, all_end_rightly, current_behind};
ghost use Rattle.class_table.specs.Lists.{ClassLists};
ghost use Rattle.class_table.specs.Noted.{noting_in, begun_builder, class_left, noted_below, program_noted};
ghost use Rattle.class_table.specs.NotedSteps.{entered_under, noting_all};
ghost use Rattle.class_table.specs.Outward.{parent_class};
ghost use Rattle.class_table.specs.Told.{lists_told, lists_with, FitCurrent, current_elements};
ghost use Rattle.class_table.specs.declared.builder.ClassTableBuilder.{ClassTableBuilder};

/// A walk that declares each class body on entering it, offers each private identifier as a use, and leaves a class
/// with its node, has the classes of the program in its table in the end, and is in none. Where classes aren't noted
/// it leaves the builder alone.
pub fn a_walk_notes_the_classes()
    ensures noted { (p : Tree) → first_fault p ≡ None
        → program_noted p.root begun_builder
        ≡ record begun_builder { classes = lists_told (classes p.root) } }
    ensures off { (root : Node) (b : ClassTableBuilder) → b.enabled ≡ false
        → program_noted root b ≡ b }
{}

/// A class is current from its body on until its node is left: behind the children of a class that is the class of its
/// body, behind those of another node the class around. The table has all classes of what was walked.
pub fn a_class_stays_current()
    ensures shape { (p : Tree) → first_fault p ≡ None
        → (end_rightly p.root.kind p.root.children ≡ true)
        × (all_end_rightly p.root.children ≡ true) }
    ensures current { (k : AstType) (node : ℕ) (current : Option ℕ) (lists : ClassLists)
        (f : Forest) → end_rightly k f ≡ true → all_end_rightly f ≡ true → FitCurrent lists current
        →
        noted_below k node f (noting_in current lists)
        ≡ noting_in (current_behind (length lists.nodes) current f)
        (lists_with lists current (uses_below (current_elements lists current) k f)
        (classes_below (length lists.nodes) current node f)) }
{}

/// The steps of a walk note what the walk notes, after each part of it.
pub fn steps_note_the_classes()
    ensures lists { (b : ClassTableBuilder) (xs ys : List Step)
        → noting_all b (xs ++ ys) ≡ noting_all (noting_all b xs) ys }
    ensures below { (p : Place) (own : Option OpenScope) (n cursor : ℕ) (f : Forest)
        (b : ClassTableBuilder)
        → noting_all b (steps_below p own n cursor f) ≡ noted_below p.node.kind p.node.node_id f b }
    ensures node { (p : Place) (n : ℕ) (b : ClassTableBuilder)
        → noting_all b (steps_of p n)
        ≡ class_left p.node.kind (noted_below p.node.kind p.node.node_id p.node.children
        (entered_under p.path p.node b)) }
    ensures program { (p : Tree) → first_fault p ≡ None
        → noting_all begun_builder (steps p)
        ≡ record begun_builder { classes = lists_told (classes p.root) } }
{}

/// There are no more classes, and no more elements of one class, than nodes.
pub fn classes_are_fewer_than_nodes()
    ensures classes { (root : Node) → length (classes root) ≤ count root.children }
    ensures elements { (body : Forest) → length (elements_of body) ≤ count body }
{}

/// A table that tells some classes tells the class around each.
pub fn a_table_tells_parents()
    ensures { (cs : List Class) (c : ℕ)
        → parent_class (lists_told cs).parents c
        ≡ option_and_then (λ k. k.parent) (slice_get cs c) }
{}
