//! The nodes of the store one after another.
ghost use Rattle.std.specs.Prelude.{◌≡◌, ◌≤◌, ◌^◌, ◌-◌, length, map};
ghost use Rattle.std.specs.Iterator.{YieldsFirst, YieldsFirstBy, item_count};
ghost use Rattle.node_store.specs.Seen.{seen};
ghost use Rattle.node_store.specs.Left.{nodes_left, seen_behind, numbered_behind};
ghost use Rattle.node_store.specs.Outward.{numbered_from};

use crate::ast_node::AstNode;
use semantic_syntax::NodeId;
use std::marker::Model;

/// The nodes that are left, in the order of their ids.
#[derive(Drop)]
pub struct AstNodesIter<'n, 'a> {
    nodes: &'n [AstNode<'a>],
    next: usize,
}

impl<'n, 'a> AstNodesIter<'n, 'a> {
    /// All of some nodes.
    pub(crate) fn new(nodes: &'n [AstNode<'a>]) -> AstNodesIter<'n, 'a>
        ensures { nodes_left result ≡ map seen nodes.now }
    {
        AstNodesIter { nodes, next: 0 }
    }

    /// How many nodes are left.
    #[tactic(auto, using(crate::proofs::Rests::seen_length))]
    pub fn len(&self) -> usize
        ensures { result ≡ length (nodes_left self.now) }
    {
        self.nodes.len().saturating_sub(self.next)
    }
}

impl<'n, 'a> Iterator for AstNodesIter<'n, 'a> {
    type Item = &'n AstNode<'a>;

    ghost next_gives = { YieldsFirstBy seen_behind nodes_left };

    ghost remaining = { item_count nodes_left };

    #[tactic(auto, using(crate::proofs::Rests::seen_rest, crate::proofs::Rests::seen_end))]
    fn next(&mut self) -> Option<&'n AstNode<'a>> {
        if self.nodes.len() <= self.next {
            return None;
        }
        let node = &self.nodes[self.next];
        self.next += 1;
        Some(node)
    }
}

/// The nodes that are left, each with its id. Contracts see these pairs.
#[derive(Drop)]
pub struct AstNodesEnumerated<'n, 'a> {
    nodes: &'n [AstNode<'a>],
    next: u32,
}

impl<'n, 'a> Model for AstNodesEnumerated<'n, 'a> {
    ghost use Rattle.std.specs.Prelude.{ℕ, List, map, length, drop, ◌≤◌, ◌^◌, ◌-◌};
    ghost use Rattle.node_store.specs.NodeList.{SeenNode};
    ghost use Rattle.node_store.specs.Outward.{numbered_from};
    ghost use Rattle.std.specs.Coded.{codes};
    ghost use Rattle.semantic_tree.specs.contracts.node.Node as node;

    ghost Value = { List (ℕ × SeenNode) };

    ghost coded = { Prim.hlevel (codes, node.the_row.coded) };

    ghost use Rattle.node_store.specs.Seen.{seen};

    ghost view = { λ a. numbered_from a.next (map seen (drop a.next a.nodes.now)) };

    ghost invariant = { λ a. length a.nodes.now ≤ 2 ^ 32 - 1 };
}

impl<'n, 'a> AstNodesEnumerated<'n, 'a> {
    /// All of some nodes, from the id 0 on.
    pub(crate) fn new(nodes: &'n [AstNode<'a>]) -> AstNodesEnumerated<'n, 'a>
        requires { length nodes.now ≤ 2 ^ 32 - 1 }
        ensures { result ≡ numbered_from 0 (map seen nodes.now) }
    {
        AstNodesEnumerated { nodes, next: 0 }
    }

    /// How many nodes are left.
    #[tactic(auto, using(crate::proofs::Rests::numbered_length))]
    pub fn len(&self) -> usize
        ensures { result ≡ length self.now }
    {
        self.nodes.len().saturating_sub(self.next as usize)
    }
}

impl<'n, 'a> Iterator for AstNodesEnumerated<'n, 'a> {
    type Item = (NodeId, &'n AstNode<'a>);

    ghost next_gives = { YieldsFirstBy numbered_behind (λ s. s) };

    ghost remaining = { item_count (λ s. s) };

    #[tactic(auto, using(crate::proofs::Rests::numbered_rest, crate::proofs::Rests::numbered_end))]
    fn next(&mut self) -> Option<(NodeId, &'n AstNode<'a>)> {
        if self.nodes.len() <= self.next as usize {
            return None;
        }
        let id = NodeId::new(self.next);
        let node = &self.nodes[id.index()];
        self.next += 1;
        Some((id, node))
    }
}
