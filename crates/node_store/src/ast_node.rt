//! One node of the store.
ghost use Rattle.std.specs.Prelude.{◌≡◌};
ghost use Rattle.node_store.specs.Seen.{seen};

use semantic_syntax::{NodeId, ScopeId, Span};
use semantic_tree::view::AstKind;

/// A node, with its id and the scope where it stands.
#[derive(Clone, Copy)]
pub struct AstNode<'a> {
    kind: AstKind<'a>,
    id: NodeId,
    scope_id: ScopeId,
}

impl<'a> AstNode<'a> {
    /// A node with this id, in this scope.
    pub(crate) fn new(kind: AstKind<'a>, id: NodeId, scope_id: ScopeId) -> AstNode<'a>
        ensures { seen result ≡ record { node = kind.entry.node.now; id = id; scope = scope_id } }
    {
        AstNode { kind, id, scope_id }
    }

    /// The view of the node.
    pub fn kind(&self) -> AstKind<'a>
        ensures { result.node.now ≡ self.now.kind.node.now }
    {
        self.kind
    }

    /// The id under which the store has the node.
    pub fn id(&self) -> NodeId
        ensures { result ≡ self.now.id }
    {
        self.id
    }

    /// The bytes of the source that the node covers.
    pub fn span(&self) -> Span
        ensures { result ≡ self.now.kind.node.now.span }
    {
        self.kind.span()
    }

    /// The scope where the node stands, and not one that it opens.
    pub fn scope_id(&self) -> ScopeId
        ensures { result ≡ self.now.scope_id }
    {
        self.scope_id
    }

    /// Where the node is in the tree: its preorder place.
    pub fn address(&self) -> NodeId
        ensures { result ≡ self.now.kind.node.now.node_id }
    {
        self.kind.node_id()
    }
}
