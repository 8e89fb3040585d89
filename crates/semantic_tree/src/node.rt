//! A node of the tree, and the list of its children.

ghost use Rattle.std.specs.Prelude.{◌≡◌, ◌+◌, ◌<◌, ◌-◌, ◌^◌, IfOk, IfErr, OnOk, OnErr};
ghost use Rattle.std.specs.Str.{chars};
ghost use Rattle.semantic_tree.specs.Forest.{Forest, nothing, join, count, numbered};
ghost use Rattle.semantic_tree.specs.Limits.{room_left};
ghost use Rattle.semantic_tree.specs.Nodes.{trees};
ghost use Rattle.semantic_tree.specs.Children.{single, node_count, numbered_node, forest_of};
ghost use Rattle.semantic_tree.specs.KindCounts.{CountsAreWithin, AddsKinds};
ghost use Rattle.semantic_kinds.specs.declared.role.Role.TheVariants as role;

use crate::kind_counts::KindCounts;
use semantic_kinds::{AstType, Marks, Role};
use semantic_syntax::{NodeId, Span, Text};
use std::alloc::{AllocError, Global};
use std::marker::Model;

/// A node of the tree: what stands where in the source, its text and marks, and its children. Its id is
/// 0 until a program numbers it.
#[cycle(tree)]
#[derive(Drop)]
pub struct Node {
    pub kind: AstType,
    pub span: Span,
    pub text: Text,
    pub marks: Marks,
    pub children: Children,
    pub node_id: NodeId,
}

/// The children of a node, each with its role, in visiting order. Contracts see a forest.
#[cycle(tree)]
#[derive(Drop)]
pub struct Children {
    nodes: Vec<(Role, Node)>,
}

impl Model for Children {
    ghost use Rattle.semantic_tree.specs.Forest.{Forest, count};
    ghost use Rattle.semantic_tree.specs.ForestCode.{forest_code};

    ghost Value = { Forest };

    ghost coded = { forest_code };

    ghost use Rattle.semantic_tree.specs.Children.{forest_of};

    ghost view = { λ a. forest_of a.nodes.items };

    ghost size = { count };

    ghost use Rattle.semantic_tree.specs.Falls.{falls};

    ghost size_decreases = { λ a h. falls a.nodes.items };
}

impl Node {
    /// A node without children, with the id 0.
    pub fn new(
        alloc: Global,
        kind: AstType,
        span: Span,
        text: &str,
        marks: Marks,
    ) -> Result<Node, AllocError>
        ensures { IfOk result (λ made. made ≡ record {
          kind = kind;
          span = span;
          text = chars text.now;
          marks = marks;
          children = nothing;
          node_id = 0;
        }) }
    {
        Node::with_room(alloc, kind, span, text, marks, 0)
    }

    /// A node without children, with the id 0, and with room for so many children.
    pub fn with_room(
        alloc: Global,
        kind: AstType,
        span: Span,
        text: &str,
        marks: Marks,
        room: usize,
    ) -> Result<Node, AllocError>
        ensures { IfOk result (λ made. made ≡ record {
          kind = kind;
          span = span;
          text = chars text.now;
          marks = marks;
          children = nothing;
          node_id = 0;
        }) }
    {
        Ok(Node {
            kind,
            span,
            text: Text::new(alloc, text)?,
            marks,
            children: Children {
                nodes: Vec::with_capacity(alloc, room)?,
            },
            node_id: NodeId::ROOT,
        })
    }

    /// Adds a child as the last one. For want of memory it hands the child back.
    pub fn push(&mut self, role: Role, child: Node) -> Result<(), Node>
        ensures ok { OnOk result
            (self.new ≡ record self.old { children = join self.old.children (single role child) }) }
        ensures err { OnErr result (self.new ≡ self.old) }
        ensures back { IfErr result (λ given. given ≡ child) }
    {
        self.children.push(role, child)
    }

    /// Numbers the nodes from this one down in preorder, counts their kinds, and gives the next number.
    #[cycle(number)]
    pub(crate) fn number(&mut self, next: u32, kinds: &mut KindCounts) -> u32
        requires fits { next + node_count self.old < 2 ^ 32 - 1 }
        requires within { CountsAreWithin next kinds.old }
        ensures numbered { self.new ≡ numbered_node next self.old }
        ensures next { result ≡ next + node_count self.old }
        ensures kinds { AddsKinds kinds.old kinds.new (single role.Root self.old) }
    {
        kinds.add(self.kind);
        self.node_id = NodeId::new(next);
        self.children.number_all(next + 1, kinds)
    }

    /// What is left of some room for nodes after this one and all below it, if they fit.
    #[tactic(auto, using(crate::specs::Falls::below))]
    pub fn room_after(&self, room: u32) -> Option<u32>
        ensures { result ≡ room_left room (node_count self.now) }
    {
        let mut left = room.checked_sub(1)?;
        for (_, child) in self.children.as_slice() {
            left = child.room_after(left)?;
        }
        Some(left)
    }

    /// A copy of the node and of all below it.
    pub fn copied(&self, alloc: Global) -> Result<Node, AllocError>
        ensures { IfOk result (λ made. made ≡ self.now) }
    {
        let mut made = Node::new(alloc, self.kind, self.span, self.text.as_str(), self.marks)?;
        made.node_id = self.node_id;
        for (role, child) in self.children.as_slice() {
            let copy = child.copied(alloc)?;
            match made.push(*role, copy) {
                Ok(()) => {}
                Err(_) => return Err(AllocError),
            }
        }
        Ok(made)
    }
}

impl Children {
    /// The trees, each with its role, in visiting order.
    #[tactic(auto, using(crate::proofs::Forests::shown))]
    pub fn as_slice(&self) -> &[(Role, Node)]
        ensures forest { forest_of result.now ≡ self.now }
        ensures trees { result.now ≡ trees self.now }
    {
        self.nodes.as_slice()
    }

    /// Adds a node as the last one, or hands it back for want of memory. Most lists are short, so a list
    /// without room gets none to spare for up to two nodes.
    #[tactic(auto, using(crate::proofs::Forests::forests))]
    fn push(&mut self, role: Role, child: Node) -> Result<(), Node>
        ensures ok { OnOk result (self.new ≡ join self.old (single role child)) }
        ensures err { OnErr result (self.new ≡ self.old) }
        ensures back { IfErr result (λ given. given ≡ child) }
    {
        let has_room = self.nodes.len() < self.nodes.capacity();
        if !has_room && self.nodes.len() < 2 && self.nodes.reserve_exact(1).is_err() {
            return Err(child);
        }
        if let Err(refused) = self.nodes.push((role, child)) {
            let (_, given) = refused.value;
            return Err(given);
        }
        Ok(())
    }

    /// Numbers the nodes of all trees in preorder, counts their kinds, and gives the next number.
    #[cycle(number)]
    fn number_all(&mut self, first: u32, kinds: &mut KindCounts) -> u32
        requires fits { first + count self.old < 2 ^ 32 - 1 }
        requires within { CountsAreWithin first kinds.old }
        ensures numbered { self.new ≡ numbered first self.old }
        ensures next { result ≡ first + count self.old }
        ensures kinds { AddsKinds kinds.old kinds.new self.old }
    {
        let mut next = first;
        for i in 0..self.nodes.len() {
            next = self.nodes[i].1.number(next, kinds);
        }
        next
    }
}
