//! The store of all nodes of a program.
ghost use Rattle.std.specs.Prelude.{◌≡◌, ◌+◌, ◌-◌, ◌<◌, ◌≤◌, ◌==◌, [], ◌∷◌, Some, OnOk, OnErr, length, drop, slice_get, slice_index, slice_set, vec_len};
ghost use Rattle.std.specs.Vec.{vec_capacity};
ghost use Rattle.semantic_kinds.specs.declared.kind.AstType.TheVariants.{Program};
ghost use Rattle.node_store.specs.Seen.{seen};
ghost use Rattle.node_store.specs.Entered.{no_flags};
ghost use Rattle.node_store.specs.NodeList.{node_at, no_nodes, with_node};
ghost use Rattle.node_store.specs.Lending.{LendsFlags};
ghost use Rattle.std.specs.Borrow.{sem};
ghost use Rattle.node_store.specs.PathIn.{path_in};
ghost use Rattle.node_store.specs.PathLeft.{path_left};
ghost use Rattle.node_store.specs.Left.{nodes_left};
ghost use Rattle.node_store.specs.Outward.{EndsAtRoot, numbered_from, above, ancestors, nodes_of, kinds_of};

use crate::ancestor_kinds::AncestorKinds;
use crate::ancestors::{
    AstNodeAncestorsIter, AstNodeEnumeratedAncestorsIter, AstNodeIdAncestorsIter,
    AstNodeKindAncestorsIter,
};
use crate::ast_node::AstNode;
use crate::node_iter::{AstNodesEnumerated, AstNodesIter};
use semantic_syntax::{NodeFlags, NodeId, ScopeId};
use semantic_tree::view::AstKind;
use std::alloc::{AllocError, Global};
use std::marker::Model;

/// The nodes of a program, in the order of their ids. Contracts see for each node what it shows, its
/// id, the scope where it stands, its parent and its flags.
#[derive(Drop)]
pub struct AstNodes<'a> {
    nodes: Vec<AstNode<'a>>,
    parents: Vec<NodeId>,
    flags: Vec<NodeFlags>,
}

impl<'a> Model for AstNodes<'a> {
    ghost use Rattle.std.specs.Prelude.{map};
    ghost use Rattle.node_store.specs.NodeList.{NodeList, IsNodeList};
    ghost use Rattle.std.specs.Coded.{codes};
    ghost use Rattle.semantic_tree.specs.contracts.node.Node as node;
    ghost use Rattle.semantic_syntax.specs.contracts.node_flags.NodeFlags as eight_flags;

    ghost Value = { NodeList };

    ghost coded = { Prim.hlevel (codes, node.the_row.coded, eight_flags.the_row.coded) };

    ghost use Rattle.node_store.specs.Seen.{seen};

    ghost view = { λ a. record { nodes = map seen a.nodes.items; parents = a.parents.items; flags = a.flags.items } };

    ghost invariant = { λ a. IsNodeList (record { nodes = map seen a.nodes.items; parents = a.parents.items; flags = a.flags.items }) };
}

/// Makes room for so many more nodes in the lists of a store.
fn reserve_in<'a>(
    nodes: &mut Vec<AstNode<'a>>,
    parents: &mut Vec<NodeId>,
    flags: &mut Vec<NodeFlags>,
    n: usize,
) -> Result<(), AllocError>
    ensures nodes { nodes.new.items ≡ nodes.old.items }
    ensures parents { parents.new.items ≡ parents.old.items }
    ensures flags { flags.new.items ≡ flags.old.items }
    ensures room { OnOk result ((vec_len nodes.new + n ≤ vec_capacity nodes.new)
        × (vec_len parents.new + n ≤ vec_capacity parents.new)
        × (vec_len flags.new + n ≤ vec_capacity flags.new)) }
{
    nodes.reserve(n)?;
    parents.reserve(n)?;
    flags.reserve(n)
}

impl<'a> AstNodes<'a> {
    /// A store without nodes.
    pub fn new(alloc: Global) -> AstNodes<'a>
        ensures { result ≡ no_nodes }
    {
        AstNodes {
            nodes: Vec::new(alloc),
            parents: Vec::new(alloc),
            flags: Vec::new(alloc),
        }
    }

    /// Where the nodes are kept.
    pub(crate) fn allocator(&self) -> Global {
        *self.nodes.allocator()
    }

    /// How many nodes there are.
    pub fn len(&self) -> usize
        ensures { result ≡ length self.now.nodes }
    {
        self.nodes.len()
    }

    /// Whether there is no node.
    pub fn is_empty(&self) -> bool
        ensures { result ≡ (length self.now.nodes == 0) }
    {
        self.nodes.is_empty()
    }

    /// The view of a node.
    pub fn kind(&self, n: NodeId) -> AstKind<'a>
        requires { n < length self.now.nodes }
        ensures { node_at self.now n ≡ Some result.node.now }
    {
        self.nodes[n.index()].kind()
    }

    /// The parent of a node; the root is its own.
    pub fn parent_id(&self, n: NodeId) -> NodeId
        requires { n < length self.now.nodes }
        ensures parent { result ≡ slice_index self.now.parents n }
        ensures before { result ≤ n - 1 }
        ensures root { n ≡ 0 → result ≡ 0 }
    {
        self.parents[n.index()]
    }

    /// The parent of a node, or the root where there is no such node.
    fn parent_or_root(&self, n: NodeId) -> NodeId
        ensures parent { result ≡ slice_index self.now.parents n }
        ensures before { result ≤ n - 1 }
    {
        match self.parents.get(n.index()) {
            Some(parent) => *parent,
            None => NodeId::ROOT,
        }
    }

    /// Where a walk stands that goes back from a node: at its parent, or at the root still.
    pub(crate) fn back_from(&self, n: NodeId) -> NodeId
        requires { n ≤ length self.now.nodes - 1 }
        ensures parent { result ≡ slice_index self.now.parents n }
        ensures within { result ≤ length self.now.nodes - 1 }
        ensures path { 1 < length (path_in self.now n)
            → path_in self.now result ≡ drop 1 (path_in self.now n) }
    {
        let _count = self.nodes.len();
        self.parent_or_root(n)
    }

    /// The view of the parent of a node; that of the root is the root.
    pub fn parent_kind(&self, n: NodeId) -> AstKind<'a>
        requires { n < length self.now.nodes }
        ensures { node_at self.now (slice_index self.now.parents n) ≡ Some result.node.now }
    {
        self.kind(self.parent_id(n))
    }

    /// The parent of a node; that of the root is the root.
    pub fn parent_node(&self, n: NodeId) -> &AstNode<'a>
        requires { n < length self.now.nodes }
        ensures { slice_get self.now.nodes (slice_index self.now.parents n)
            ≡ Some (seen result.now) }
    {
        self.get_node(self.parent_id(n))
    }

    /// The node with this id, which is its position in the list.
    pub fn get_node(&self, n: NodeId) -> &AstNode<'a>
        requires { n < length self.now.nodes }
        ensures { slice_get self.now.nodes n ≡ Some (seen result.now) }
    {
        &self.nodes[n.index()]
    }

    /// Puts a node in the place of the one with this id. The parent and the flags there stay.
    #[tactic(auto, using(crate::proofs::Rests::seen_set))]
    pub fn set_node(&mut self, n: NodeId, node: &AstNode<'a>)
        requires { n < length self.old.nodes }
        ensures { self.new
            ≡ record self.old { nodes = slice_set self.old.nodes n (seen node.now) } }
    {
        self.nodes[n.index()] = AstNode::new(node.kind(), node.id(), node.scope_id());
    }

    /// The flags of a node, to be changed.
    pub fn flags_mut(&mut self, n: NodeId) -> &mut NodeFlags
        requires { n < length self.old.flags }
        ensures* writes_back { sem 𝓛 (LendsFlags self.entry n result) }
        ensures value { slice_get self.old.flags n ≡ Some result.now }
    {
        &mut self.flags[n.index()]
    }

    /// The flags of a node.
    pub fn flags(&self, n: NodeId) -> NodeFlags
        requires { n < length self.now.nodes }
        ensures { slice_get self.now.flags n ≡ Some result }
    {
        self.flags[n.index()]
    }

    /// The nodes, in the order of their ids.
    pub fn iter(&self) -> AstNodesIter<'_, 'a>
        ensures { nodes_left result ≡ self.now.nodes }
    {
        AstNodesIter::new(self.nodes.as_slice())
    }

    /// The nodes, each with its id.
    pub fn iter_enumerated(&self) -> AstNodesEnumerated<'_, 'a>
        ensures { result ≡ numbered_from 0 self.now.nodes }
    {
        AstNodesEnumerated::new(self.nodes.as_slice())
    }

    /// The ids above a node: its parent first, the root last. The root has none.
    pub fn ancestor_ids(&self, n: NodeId) -> AstNodeIdAncestorsIter<'_>
        requires { n < length self.now.nodes }
        ensures ids { result ≡ above self.now.parents n }
        ensures root { n ≡ 0 → result ≡ [] }
        ensures ends { 0 < n → EndsAtRoot result }
    {
        AstNodeIdAncestorsIter::above(self.parents.as_slice(), n)
    }

    /// What the nodes above a node show: its parent first, the root last.
    pub fn ancestor_kinds(&self, n: NodeId) -> AstNodeKindAncestorsIter<'_, 'a>
        requires { n < length self.now.nodes }
        ensures { result ≡ kinds_of (ancestors self.now n) }
    {
        AstNodeKindAncestorsIter::new(self.ancestors_enumerated(n))
    }

    /// What a node and those above it show, the root last.
    #[tactic(auto, using(crate::proofs::Paths::has_first))]
    pub(crate) fn path(&self, n: NodeId) -> AncestorKinds<'_, 'a>
        requires { n < length self.now.nodes }
        ensures path { path_left result ≡ path_in self.now n }
        ensures first { 0 < length (path_left result) }
    {
        let ids = AstNodeIdAncestorsIter::outward(self.parents.as_slice(), n);
        let way = AstNodeEnumeratedAncestorsIter::new(self.nodes.as_slice(), ids);
        AncestorKinds::in_store(AstNodeKindAncestorsIter::new(way))
    }

    /// The nodes above a node: its parent first, the root last.
    pub fn ancestors(&self, n: NodeId) -> AstNodeAncestorsIter<'_, 'a>
        requires { n < length self.now.nodes }
        ensures { result ≡ nodes_of (ancestors self.now n) }
    {
        AstNodeAncestorsIter::new(self.ancestors_enumerated(n))
    }

    /// The nodes above a node, each with its id: its parent first, the root last.
    pub fn ancestors_enumerated(&self, n: NodeId) -> AstNodeEnumeratedAncestorsIter<'_, 'a>
        requires { n < length self.now.nodes }
        ensures { result ≡ ancestors self.now n }
    {
        let ids = AstNodeIdAncestorsIter::above(self.parents.as_slice(), n);
        AstNodeEnumeratedAncestorsIter::new(self.nodes.as_slice(), ids)
    }

    /// The view of the root.
    pub fn program(&self) -> AstKind<'a>
        requires { 0 < length self.now.nodes }
        ensures { node_at self.now 0 ≡ Some result.node.now }
    {
        self.kind(NodeId::ROOT)
    }

    /// Lets go of all nodes.
    pub fn clear(&mut self)
        ensures { self.new ≡ no_nodes }
    {
        self.nodes.clear();
        self.parents.clear();
        self.flags.clear();
    }

    /// Makes room for so many more nodes. For want of memory the nodes are as before.
    pub fn reserve(&mut self, n: usize) -> Result<(), AllocError>
        ensures { self.new ≡ self.old }
    {
        reserve_in(&mut self.nodes, &mut self.parents, &mut self.flags, n)
    }

    /// Adds the root to an empty store, under the id 0 and as its own parent. For want of memory the
    /// store stays empty.
    pub fn add_program_node(
        &mut self,
        kind: AstKind<'a>,
        scope: ScopeId,
        flags: NodeFlags,
    ) -> Result<(), AllocError>
        requires empty { length self.old.nodes ≡ 0 }
        requires program { kind.node.now.kind ≡ Program }
        ensures ok { OnOk result
            (self.new ≡ with_node self.old kind.entry.node.now 0 scope 0 flags) }
        ensures err { OnErr result (self.new ≡ self.old) }
    {
        self.push(NodeId::ROOT, kind, scope, NodeId::ROOT, flags)
    }

    /// Adds a node below an earlier one, under the next id. For want of memory the nodes are as before.
    pub fn add_node(
        &mut self,
        n: NodeId,
        kind: AstKind<'a>,
        scope: ScopeId,
        parent: NodeId,
        flags: NodeFlags,
    ) -> Result<(), AllocError>
        requires next { n ≡ length self.old.nodes }
        requires below { parent < n }
        ensures ok { OnOk result
            (self.new ≡ with_node self.old kind.entry.node.now n scope parent flags) }
        ensures err { OnErr result (self.new ≡ self.old) }
    {
        self.push(n, kind, scope, parent, flags)
    }

    /// Adds a node under the next id below the one where a walk stands; the root is its own parent. For want of memory
    /// the nodes are as before.
    pub(crate) fn push_below(
        &mut self,
        n: NodeId,
        kind: AstKind<'a>,
        scope: ScopeId,
        parent: NodeId,
    ) -> Result<(), AllocError>
        requires next { n ≡ length self.old.nodes }
        requires within { parent ≤ length self.old.nodes - 1 }
        ensures ok { OnOk result
            (self.new ≡ with_node self.old kind.entry.node.now n scope parent no_flags) }
        ensures err { OnErr result (self.new ≡ self.old) }
        ensures path { OnOk result
            (path_in self.new n ≡ kind.entry.node.now ∷ path_in self.old parent) }
    {
        let _count = self.nodes.len();
        self.push(n, kind, scope, parent, NodeFlags::empty())
    }

    /// Adds a node under the next id. For want of memory the nodes are as before.
    fn push(
        &mut self,
        n: NodeId,
        kind: AstKind<'a>,
        scope: ScopeId,
        parent: NodeId,
        flags: NodeFlags,
    ) -> Result<(), AllocError>
        requires next { n ≡ length self.old.nodes }
        requires before { parent ≤ n - 1 }
        ensures ok { OnOk result
            (self.new ≡ with_node self.old kind.entry.node.now n scope parent flags) }
        ensures err { OnErr result (self.new ≡ self.old) }
    {
        reserve_in(&mut self.nodes, &mut self.parents, &mut self.flags, 1)?;
        self.nodes.push_reserved(AstNode::new(kind, n, scope));
        self.parents.push_reserved(parent);
        self.flags.push_reserved(flags);
        Ok(())
    }
}

impl<'n, 'a> IntoIterator for &'n AstNodes<'a> {
    type Item = &'n AstNode<'a>;

    type IntoIter = AstNodesIter<'n, 'a>;

    ghost into_iter_gives = { λ s it. nodes_left it ≡ s.now.nodes };

    fn into_iter(self) -> AstNodesIter<'n, 'a> {
        self.iter()
    }
}
