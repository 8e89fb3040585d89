//! Laws of trees: each is the contract of a function that does nothing.

ghost use Rattle.std.specs.Prelude.{◌≡◌, ℕ, ◌<◌, ◌↔◌, Bool, None, length, slice_index_or};
ghost use Rattle.semantic_kinds.specs.Kinds.{all_kinds};
ghost use Rattle.semantic_kinds.specs.declared.kind.AstType.{AstType};
ghost use Rattle.semantic_tree.specs.Forest.{Forest};
ghost use Rattle.semantic_tree.specs.KindCounts.{how_many, among_kinds};
ghost use Rattle.semantic_tree.specs.Nodes.{trees};
ghost use Rattle.semantic_tree.specs.Tree.{Tree, IsNumbered, IsPreorder};
ghost use Rattle.semantic_tree.specs.Faults.{first_fault};
ghost use Rattle.semantic_tree.specs.Shaped.{IsShaped};
ghost use Rattle.semantic_tree.specs.declared.node.Node.{Node};
ghost use Rattle.semantic_kinds.specs.declared.role.Role.{Role};

/// A program has no fault exactly where it is shaped.
pub fn faultless_where_shaped()
    ensures { (p : Tree) → (first_fault p ≡ None) ↔ IsShaped p }
{}

/// The nodes of a numbered tree are numbered from their own ids on.
pub fn numbers_go_down()
    ensures root { (node : Node) → IsNumbered node → IsPreorder node }
    ensures children { (node : Node) (i : ℕ) (d : Role × Node) → IsPreorder node
        → i < length (trees node.children) →
        IsPreorder (slice_index_or (trees node.children) i d).1 }
{}

/// The counts of all kinds that pass a test make up the count of the nodes that pass it.
pub fn kinds_make_up_counts()
    ensures { (test : AstType → Bool) (f : Forest)
        → among_kinds test f all_kinds ≡ how_many test f }
{}
