//! The path to the current node, whichever way the store keeps it.
ghost use Rattle.std.specs.Prelude.{◌≡◌, Some, drop};
ghost use Rattle.semantic_tree.specs.Nodes.{first_of};
ghost use Rattle.node_store.specs.Path.{current_id_in, parent_id_in, parent_on_path, from_asked, from_node, IsOn};
ghost use Rattle.node_store.specs.PathLeft.{path_left};
ghost use Rattle.node_store.specs.PathOf.{path_of, IsInStore, HasCurrent};

use crate::ancestor_kinds::AncestorKinds;
use crate::nodes::AstNodes;
use crate::stack::AncestryStack;
use semantic_syntax::NodeId;
use semantic_tree::view::AstKind;

/// The path from the current node to the root. Both kinds answer alike on the same path.
#[derive(Clone, Copy)]
pub enum Ancestry<'a, 'n> {
    /// The path from a node of a full store.
    Nodes {
        nodes: &'n AstNodes<'a>,
        current_node_id: NodeId,
    },
    /// The path that a stack holds.
    Stack(&'n AncestryStack<'a>),
}

impl<'a, 'n> Ancestry<'a, 'n> {
    /// What the current node shows.
    pub fn current_kind(self) -> AstKind<'a>
        requires { HasCurrent self }
        ensures { first_of (path_of self.entry) ≡ Some result.node.now }
    {
        match self {
            Ancestry::Nodes {
                nodes,
                current_node_id,
            } => nodes.path(current_node_id).current_kind(),
            Ancestry::Stack(stack) => stack.current_kind(),
        }
    }

    /// Where the current node is in the tree: its preorder place.
    pub fn current_address(self) -> NodeId
        requires { HasCurrent self }
        ensures { result ≡ current_id_in (path_of self.entry) }
    {
        match self {
            Ancestry::Nodes {
                nodes,
                current_node_id,
            } => nodes.path(current_node_id).current_node_id(),
            Ancestry::Stack(stack) => stack.current_address(),
        }
    }

    /// What the parent of the current node shows; where it has none, what this shows itself.
    pub fn parent_kind(self) -> AstKind<'a>
        requires { HasCurrent self }
        ensures { parent_on_path (path_of self.entry) ≡ Some result.node.now }
    {
        match self {
            Ancestry::Nodes {
                nodes,
                current_node_id,
            } => nodes.path(current_node_id).parent_kind(),
            Ancestry::Stack(stack) => stack.parent_kind(),
        }
    }

    /// The id of the parent of the current node, or 0 where there is none.
    pub fn parent_node_id(self) -> NodeId
        requires { IsInStore self }
        ensures { result ≡ parent_id_in (path_of self.entry) }
    {
        match self {
            Ancestry::Nodes {
                nodes,
                current_node_id,
            } => nodes.path(current_node_id).parent_node_id(),
            Ancestry::Stack(stack) => stack.parent_node_id(),
        }
    }

    /// What the nodes above the current one show, its parent first.
    pub fn ancestor_kinds(self) -> AncestorKinds<'n, 'a>
        requires { IsInStore self }
        ensures { path_left result ≡ drop 1 (path_of self.entry) }
    {
        match self {
            Ancestry::Nodes {
                nodes,
                current_node_id,
            } => nodes.path(current_node_id).above(),
            Ancestry::Stack(stack) => stack.ancestor_kinds(),
        }
    }

    /// What the nodes above the current one show, its parent first, by a path that is lent.
    pub fn above(&self) -> AncestorKinds<'n, 'a>
        requires { IsInStore self.now }
        ensures { path_left result ≡ drop 1 (path_of self.now) }
    {
        match self {
            Ancestry::Nodes {
                nodes,
                current_node_id,
            } => nodes.path(*current_node_id).above(),
            Ancestry::Stack(stack) => stack.ancestor_kinds(),
        }
    }

    /// What the nodes on the path show from the one with this id on, or from the current one on where
    /// none is asked for; nothing where it is not on the path.
    pub fn ancestor_kinds_from(self, from: Option<NodeId>) -> AncestorKinds<'n, 'a>
        requires { IsInStore self }
        ensures { path_left result ≡ from_asked from (path_of self.entry) }
    {
        match self {
            Ancestry::Nodes {
                nodes,
                current_node_id,
            } => nodes.path(current_node_id).from_asked(from),
            Ancestry::Stack(stack) => stack.ancestor_kinds_from(from),
        }
    }

    /// What the node with this id shows, which is on the path.
    pub fn find_kind_by_node_id(self, n: NodeId) -> AstKind<'a>
        requires within { IsInStore self }
        requires on { IsOn n (path_of self) }
        ensures { first_of (from_node n (path_of self.entry)) ≡ Some result.node.now }
    {
        match self {
            Ancestry::Nodes {
                nodes,
                current_node_id,
            } => nodes.path(current_node_id).find_kind(n),
            Ancestry::Stack(stack) => stack.find_kind_by_node_id(n),
        }
    }
}
