//! The way from a node of the store to the root.
ghost use Rattle.std.specs.Prelude.{⊤, ◌≡◌, ◌<◌, All, length, map};
ghost use Rattle.std.specs.Iterator.{YieldsFirst, YieldsFirstBy, item_count};
ghost use Rattle.node_store.specs.Seen.{seen};
ghost use Rattle.node_store.specs.Left.{seen_behind, numbered_behind, shown};
ghost use Rattle.node_store.specs.NodeList.{StandBefore};
ghost use Rattle.node_store.specs.Outward.{outward, above, parent_above, nodes_of, kinds_of, numbered_of};

use crate::ast_node::AstNode;
use semantic_syntax::NodeId;
use semantic_tree::view::AstKind;
use std::alloc::AllocError;
use std::marker::Model;

/// The parent of a node; the root has none.
fn parent_above(parents: &[NodeId], n: NodeId) -> Option<NodeId>
    requires { n < length parents.now }
    ensures { result ≡ parent_above parents.now n }
{
    if n == NodeId::ROOT {
        None
    } else {
        Some(parents[n.index()])
    }
}

/// The ids that are left on the way to the root. Contracts see them as a list.
#[derive(Drop)]
pub struct AstNodeIdAncestorsIter<'n> {
    parents: &'n [NodeId],
    next: Option<NodeId>,
}

impl<'n> Model for AstNodeIdAncestorsIter<'n> {
    ghost use Rattle.std.specs.Prelude.{ℕ, List, ◌<◌, length, IfSome};
    ghost use Rattle.node_store.specs.NodeList.{StandBefore};
    ghost use Rattle.node_store.specs.Outward.{outward_from};

    ghost Value = { List ℕ };

    ghost view = { λ a. outward_from a.parents.now a.next };

    ghost invariant = { λ a. StandBefore a.parents.now × IfSome a.next (λ n. n < length a.parents.now) };
}

impl<'n> AstNodeIdAncestorsIter<'n> {
    /// The way from a node, which is the first, by these parents.
    #[tactic(auto, using(crate::proofs::Ways::outward_is_below))]
    pub(crate) fn outward(parents: &'n [NodeId], n: NodeId) -> AstNodeIdAncestorsIter<'n>
        requires within { n < length parents.now }
        requires before { StandBefore parents.now }
        ensures ids { result ≡ outward parents.now n }
        ensures below { All (λ k. k < length parents.now) result }
    {
        AstNodeIdAncestorsIter {
            parents,
            next: Some(n),
        }
    }

    /// The way from above a node, by these parents.
    #[tactic(auto, using(crate::proofs::Ways::above_is_below, crate::proofs::Ways::above_is))]
    pub(crate) fn above(parents: &'n [NodeId], n: NodeId) -> AstNodeIdAncestorsIter<'n>
        requires within { n < length parents.now }
        requires before { StandBefore parents.now }
        ensures ids { result ≡ above parents.now n }
        ensures below { All (λ k. k < length parents.now) result }
    {
        AstNodeIdAncestorsIter {
            parents,
            next: parent_above(parents, n),
        }
    }
}

impl<'n> AstNodeIdAncestorsIter<'n> {
    /// The same ids, still to be taken.
    fn again(&self) -> AstNodeIdAncestorsIter<'n>
        ensures { result ≡ self.now }
    {
        AstNodeIdAncestorsIter {
            parents: self.parents,
            next: self.next,
        }
    }
}

impl<'n> Clone for AstNodeIdAncestorsIter<'n> {
    ghost is_clone = { λ a b. b ≡ a };

    ghost is_infallible = { λ a. ⊤ };

    fn clone(&self) -> Result<AstNodeIdAncestorsIter<'n>, AllocError> {
        Ok(self.again())
    }
}

impl<'n> Iterator for AstNodeIdAncestorsIter<'n> {
    type Item = NodeId;

    ghost next_gives = { YieldsFirst (λ s. s) };

    ghost remaining = { item_count (λ s. s) };

    #[tactic(auto, using(crate::proofs::Ways::outward_steps))]
    fn next(&mut self) -> Option<NodeId> {
        let n = self.next?;
        self.next = parent_above(self.parents, n);
        Some(n)
    }
}

/// The nodes that are left on the way to the root, each with its id. Contracts see them as a list.
#[derive(Drop)]
pub struct AstNodeEnumeratedAncestorsIter<'n, 'a> {
    nodes: &'n [AstNode<'a>],
    ids: AstNodeIdAncestorsIter<'n>,
}

impl<'n, 'a> Model for AstNodeEnumeratedAncestorsIter<'n, 'a> {
    ghost use Rattle.std.specs.Prelude.{ℕ, List, map, All, ◌<◌, length};
    ghost use Rattle.semantic_tree.specs.declared.node.Node.{Node};
    ghost use Rattle.node_store.specs.NodeList.{SeenNode};
    ghost use Rattle.node_store.specs.Outward.{numbered_of};
    ghost use Rattle.std.specs.Coded.{codes};
    ghost use Rattle.semantic_tree.specs.contracts.node.Node as node;

    ghost Value = { List (ℕ × SeenNode) };

    ghost coded = { Prim.hlevel (codes, node.the_row.coded) };

    ghost use Rattle.node_store.specs.Seen.{seen};

    ghost view = { λ a. numbered_of (map seen a.nodes.now) a.ids };

    ghost invariant = { λ a. All (λ k. k < length a.nodes.now) a.ids };
}

impl<'n, 'a> AstNodeEnumeratedAncestorsIter<'n, 'a> {
    /// The nodes with these ids.
    pub(crate) fn new(
        nodes: &'n [AstNode<'a>],
        ids: AstNodeIdAncestorsIter<'n>,
    ) -> AstNodeEnumeratedAncestorsIter<'n, 'a>
        requires { All (λ k. k < length nodes.now) ids }
        ensures { result ≡ numbered_of (map seen nodes.now) ids.entry }
    {
        AstNodeEnumeratedAncestorsIter { nodes, ids }
    }
}

impl<'n, 'a> AstNodeEnumeratedAncestorsIter<'n, 'a> {
    /// The same nodes, still to be taken.
    fn again(&self) -> AstNodeEnumeratedAncestorsIter<'n, 'a>
        ensures { result ≡ self.now }
    {
        AstNodeEnumeratedAncestorsIter {
            nodes: self.nodes,
            ids: self.ids.again(),
        }
    }
}

impl<'n, 'a> Clone for AstNodeEnumeratedAncestorsIter<'n, 'a> {
    ghost is_clone = { λ a b. b ≡ a };

    ghost is_infallible = { λ a. ⊤ };

    fn clone(&self) -> Result<AstNodeEnumeratedAncestorsIter<'n, 'a>, AllocError> {
        Ok(self.again())
    }
}

impl<'n, 'a> Iterator for AstNodeEnumeratedAncestorsIter<'n, 'a> {
    type Item = (NodeId, &'n AstNode<'a>);

    ghost next_gives = { YieldsFirstBy numbered_behind (λ s. s) };

    ghost remaining = { item_count (λ s. s) };

    fn next(&mut self) -> Option<(NodeId, &'n AstNode<'a>)> {
        let id = self.ids.next()?;
        Some((id, &self.nodes[id.index()]))
    }
}

/// The nodes that are left on the way to the root. Contracts see them as a list.
#[derive(Drop)]
pub struct AstNodeAncestorsIter<'n, 'a> {
    way: AstNodeEnumeratedAncestorsIter<'n, 'a>,
}

impl<'n, 'a> Model for AstNodeAncestorsIter<'n, 'a> {
    ghost use Rattle.std.specs.Prelude.{ℕ, List, map};
    ghost use Rattle.semantic_tree.specs.declared.node.Node.{Node};
    ghost use Rattle.node_store.specs.NodeList.{SeenNode};
    ghost use Rattle.node_store.specs.Outward.{nodes_of};
    ghost use Rattle.std.specs.Coded.{codes};
    ghost use Rattle.semantic_tree.specs.contracts.node.Node as node;

    ghost Value = { List SeenNode };

    ghost coded = { Prim.hlevel (codes, node.the_row.coded) };

    ghost view = { λ a. nodes_of a.way };
}

impl<'n, 'a> AstNodeAncestorsIter<'n, 'a> {
    /// The same nodes, without their ids.
    pub(crate) fn new(way: AstNodeEnumeratedAncestorsIter<'n, 'a>) -> AstNodeAncestorsIter<'n, 'a>
        ensures { result ≡ nodes_of way.entry }
    {
        AstNodeAncestorsIter { way }
    }
}

impl<'n, 'a> AstNodeAncestorsIter<'n, 'a> {
    /// The same nodes, still to be taken.
    fn again(&self) -> AstNodeAncestorsIter<'n, 'a>
        ensures { result ≡ self.now }
    {
        AstNodeAncestorsIter {
            way: self.way.again(),
        }
    }
}

impl<'n, 'a> Clone for AstNodeAncestorsIter<'n, 'a> {
    ghost is_clone = { λ a b. b ≡ a };

    ghost is_infallible = { λ a. ⊤ };

    fn clone(&self) -> Result<AstNodeAncestorsIter<'n, 'a>, AllocError> {
        Ok(self.again())
    }
}

impl<'n, 'a> Iterator for AstNodeAncestorsIter<'n, 'a> {
    type Item = &'n AstNode<'a>;

    ghost next_gives = { YieldsFirstBy seen_behind (λ s. s) };

    ghost remaining = { item_count (λ s. s) };

    fn next(&mut self) -> Option<&'n AstNode<'a>> {
        match self.way.next() {
            Some((_, node)) => Some(node),
            None => None,
        }
    }
}

/// What the nodes that are left on the way to the root show. Contracts see them as a list.
#[derive(Drop)]
pub struct AstNodeKindAncestorsIter<'n, 'a> {
    way: AstNodeEnumeratedAncestorsIter<'n, 'a>,
}

impl<'n, 'a> Model for AstNodeKindAncestorsIter<'n, 'a> {
    ghost use Rattle.std.specs.Prelude.{ℕ, List, map};
    ghost use Rattle.semantic_tree.specs.declared.node.Node.{Node};
    ghost use Rattle.node_store.specs.NodeList.{SeenNode};
    ghost use Rattle.node_store.specs.Outward.{kinds_of};
    ghost use Rattle.std.specs.Coded.{codes};
    ghost use Rattle.semantic_tree.specs.contracts.node.Node as node;

    ghost Value = { List Node };

    ghost coded = { Prim.hlevel (codes, node.the_row.coded) };

    ghost view = { λ a. kinds_of a.way };
}

impl<'n, 'a> AstNodeKindAncestorsIter<'n, 'a> {
    /// The same nodes, without their ids.
    pub(crate) fn new(
        way: AstNodeEnumeratedAncestorsIter<'n, 'a>,
    ) -> AstNodeKindAncestorsIter<'n, 'a>
        ensures { result ≡ kinds_of way.entry }
    {
        AstNodeKindAncestorsIter { way }
    }
}

impl<'n, 'a> AstNodeKindAncestorsIter<'n, 'a> {
    /// The same nodes, still to be taken.
    pub(crate) fn again(&self) -> AstNodeKindAncestorsIter<'n, 'a>
        ensures { result ≡ self.now }
    {
        AstNodeKindAncestorsIter {
            way: self.way.again(),
        }
    }
}

impl<'n, 'a> Clone for AstNodeKindAncestorsIter<'n, 'a> {
    ghost is_clone = { λ a b. b ≡ a };

    ghost is_infallible = { λ a. ⊤ };

    fn clone(&self) -> Result<AstNodeKindAncestorsIter<'n, 'a>, AllocError> {
        Ok(self.again())
    }
}

impl<'n, 'a> Iterator for AstNodeKindAncestorsIter<'n, 'a> {
    type Item = AstKind<'a>;

    ghost next_gives = { YieldsFirstBy shown (λ s. s) };

    ghost remaining = { item_count (λ s. s) };

    fn next(&mut self) -> Option<AstKind<'a>> {
        match self.way.next() {
            Some((_, node)) => Some(node.kind()),
            None => None,
        }
    }
}
