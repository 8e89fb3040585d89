//! Questions to one node, or to two.
ghost use Rattle.std.specs.Prelude.{◌≡◌, ◌∷◌, ◌+◌, ◌≤◌, ◌==◌, option_map, find};
ghost use Rattle.std.specs.Str.{bytes_eq};
ghost use Rattle.semantic_kinds.specs.declared.role.Role.{Role};
ghost use Rattle.semantic_tree.specs.ChildIter.{shown};
ghost use Rattle.semantic_tree.specs.Views.{has_child, is_child_in};
ghost use Rattle.node_store.specs.PathLeft.{path_left};
ghost use Rattle.check_model.specs.Surroundings.{first_bytes};

use node_store::AncestorKinds;
use semantic_syntax::{NodeId, Span};
use semantic_tree::{AstKind, Role};

/// Whether two nodes have the same text.
#[tactic(auto, using(semantic_syntax::proofs::SameTexts::texts))]
pub fn is_same(one: AstKind<'_>, other: AstKind<'_>) -> bool
    ensures { result ≡ bytes_eq one.entry.node.now.text other.entry.node.now.text }
{
    one.text().as_str() == other.text().as_str()
}

/// Whether a node has a child in the role.
pub fn has_child(kind: AstKind<'_>, role: Role) -> bool
    ensures { result ≡ has_child role kind.entry.node.now }
{
    kind.child(role).is_some()
}

/// Whether the inner node is a child of the outer one in the role.
pub fn is_child_in(role: Role, outer: AstKind<'_>, inner: AstKind<'_>) -> bool
    ensures { result ≡ is_child_in role outer.entry.node.now inner.entry.node.now }
{
    for child in outer.children(role) {
        if child.node_id() == inner.node_id() {
            return true;
        }
    }
    false
}

/// The node with the id, among a node and those above it.
pub fn node_of<'a>(
    id: NodeId,
    kind: AstKind<'a>,
    above: AncestorKinds<'_, 'a>,
) -> Option<AstKind<'a>>
    ensures { option_map shown result
        ≡ find (λ node. node.node_id == id) (kind.entry.node.now ∷ path_left above.entry) }
{
    if kind.node_id() == id {
        return Some(kind);
    }
    let mut left = above;
    while let Some(outer) = left.next() {
        if outer.node_id() == id {
            return Some(outer);
        }
    }
    None
}

/// So many bytes from the start of a span.
pub fn first_bytes(count: u32, span: Span) -> Span
    requires { span.start + count ≤ u32.MAX }
    ensures { result ≡ first_bytes count span }
{
    Span::sized(span.start, count)
}
