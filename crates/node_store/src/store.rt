//! What a walk keeps of the nodes: all of them, or the path to the current one.
ghost use Rattle.std.specs.Prelude.{◌≡◌, ◌+◌, ◌<◌, [], ◌∷◌, OnOk, OnErr, length, drop, option_map};
ghost use Rattle.node_store.specs.Entered.{entering, leaving};
ghost use Rattle.node_store.specs.PathLeft.{path_left};
ghost use Rattle.node_store.specs.PathOf.{path_of, IsInStore};
ghost use Rattle.node_store.specs.Store.{NodeIsKept, IsCounted, IsWalked, path_kept, path_to, nodes_kept, emptied, entered_kept, entered_in, kept_with, kept_behind, back_from, after_entering, after_leaving};

use crate::ancestor_kinds::AncestorKinds;
use crate::ancestry::Ancestry;
use crate::nodes::AstNodes;
use crate::stack::AncestryStack;
use semantic_syntax::{NodeId, ScopeId};
use semantic_tree::view::AstKind;
use std::alloc::{AllocError, Global};

/// Whether all nodes are kept, or the path alone, which is all that checks ask for.
#[derive(Drop)]
pub enum AstNodeStoreKind<'a> {
    /// All nodes.
    Full(AstNodes<'a>),
    /// The path to the current node.
    Ancestry(AncestryStack<'a>),
}

/// The nodes that a walk has met.
#[derive(Drop)]
pub struct AstNodeStore<'a> {
    /// The node at which the walk stands; 0 at first.
    pub current_node_id: NodeId,
    /// How many ids were given out.
    pub count: u32,
    pub kind: AstNodeStoreKind<'a>,
}

impl<'a> AstNodeStoreKind<'a> {
    /// Where it is kept.
    fn allocator(&self) -> Global {
        match self {
            AstNodeStoreKind::Full(nodes) => nodes.allocator(),
            AstNodeStoreKind::Ancestry(stack) => stack.allocator(),
        }
    }

    /// Keeps the node of the next id, below the one at which the walk stands. For want of memory all is as before.
    fn enter(
        &mut self,
        id: NodeId,
        kind: AstKind<'a>,
        scope: ScopeId,
        parent: NodeId,
    ) -> Result<(), AllocError>
        requires { IsCounted parent id self.old }
        ensures ok { OnOk result
            (self.new ≡ kept_with self.old kind.entry.node.now id scope parent) }
        ensures err { OnErr result (self.new ≡ self.old) }
        ensures path { OnOk result
            (path_kept id self.new ≡ kind.entry.node.now ∷ path_kept parent self.old) }
    {
        match self {
            AstNodeStoreKind::Full(nodes) => nodes.push_below(id, kind, scope, parent),
            AstNodeStoreKind::Ancestry(stack) => stack.push(kind),
        }
    }

    /// Goes back from the node at which the walk stands, and gives the one where it stands then.
    fn leave(&mut self, count: u32, from: NodeId) -> NodeId
        requires { IsCounted from count self.old }
        ensures back { result ≡ back_from from self.old }
        ensures kept { self.new ≡ kept_behind self.old }
        ensures path { 1 < length (path_kept from self.old)
            → path_kept result self.new ≡ drop 1 (path_kept from self.old) }
        ensures stands { IsCounted result count self.new }
    {
        match self {
            AstNodeStoreKind::Full(nodes) => nodes.back_from(from),
            AstNodeStoreKind::Ancestry(stack) => {
                stack.pop();
                stack.current_node_id()
            }
        }
    }
}

impl<'a> AstNodeStore<'a> {
    /// A store that keeps a path, on which no node is.
    pub fn new(alloc: Global) -> AstNodeStore<'a>
        ensures { result ≡ record {
          current_node_id = 0;
          count = 0;
          kind = AstNodeStoreKind.Ancestry [];
        } }
    {
        AstNodeStore {
            current_node_id: NodeId::ROOT,
            count: 0,
            kind: AstNodeStoreKind::Ancestry(AncestryStack::new(alloc)),
        }
    }

    /// Begins to keep all nodes, or the path alone. What was kept is dropped; the current id and the count stay.
    pub fn set_build_nodes(&mut self, yes: bool)
        ensures { self.new ≡ record self.old { kind = emptied yes } }
    {
        let alloc = self.kind.allocator();
        self.kind = if yes {
            AstNodeStoreKind::Full(AstNodes::new(alloc))
        } else {
            AstNodeStoreKind::Ancestry(AncestryStack::new(alloc))
        };
    }

    /// How many ids were given out.
    pub fn node_count(&self) -> u32
        ensures { result ≡ self.now.count }
    {
        self.count
    }

    /// Gives out the next id.
    pub fn alloc_node_id(&mut self) -> NodeId
        requires { self.old.count < u32.MAX }
        ensures id { result ≡ self.old.count }
        ensures counted { self.new ≡ record self.old { count = self.old.count + 1 } }
    {
        let id = NodeId::new(self.count);
        self.count += 1;
        id
    }

    /// Makes room for so many more nodes in a full store. What is kept stays, whatever the answer.
    pub fn reserve(&mut self, n: usize) -> Result<(), AllocError>
        ensures { self.new ≡ self.old }
    {
        match &mut self.kind {
            AstNodeStoreKind::Full(nodes) => nodes.reserve(n),
            AstNodeStoreKind::Ancestry(_) => Ok(()),
        }
    }

    /// A walk enters a node, which stands in the scope, and stands at it then. The node gets the next id, and in a full
    /// store the one where the walk stood as its parent; the root is its own. That the ids are used up is told as want
    /// of memory; a program has no more nodes than there are ids. For want of memory all is as before.
    pub fn enter(&mut self, kind: AstKind<'a>, scope: ScopeId) -> Result<(), AllocError>
        requires { IsWalked self.old }
        ensures ok { OnOk result (self.new ≡ after_entering self.old kind.entry.node.now scope) }
        ensures err { OnErr result (self.new ≡ self.old) }
        ensures path { OnOk result (path_to self.new ≡ kind.entry.node.now ∷ path_to self.old) }
        ensures entered { OnOk result
            (entered_in self.new
            ≡ option_map (λ e. entering e kind.entry.node.now scope) (entered_in self.old)) }
        ensures stands { IsWalked self.new }
    {
        if self.count == u32::MAX {
            return Err(AllocError);
        }
        let id = NodeId::new(self.count);
        self.kind.enter(id, kind, scope, self.current_node_id)?;
        self.current_node_id = id;
        self.count += 1;
        Ok(())
    }

    /// A walk leaves the node at which it stands: it stands at the parent again. Behind the root a full store stands at
    /// the root still, and a path is empty.
    pub fn leave(&mut self)
        requires { IsWalked self.old }
        ensures left { self.new ≡ after_leaving self.old }
        ensures path { 1 < length (path_to self.old)
            → path_to self.new ≡ drop 1 (path_to self.old) }
        ensures entered { entered_in self.new ≡ option_map leaving (entered_in self.old) }
        ensures stands { IsWalked self.new }
    {
        self.current_node_id = self.kind.leave(self.count, self.current_node_id);
    }

    /// What the node at which the walk stands and those above it show, inner first.
    pub fn outward(&self) -> AncestorKinds<'_, 'a>
        requires { NodeIsKept self.now.current_node_id self.now.kind }
        ensures { path_left result ≡ path_to self.now }
    {
        match &self.kind {
            AstNodeStoreKind::Full(nodes) => nodes.path(self.current_node_id),
            AstNodeStoreKind::Ancestry(stack) => stack.outward(),
        }
    }

    /// The path to the node at which the walk stands.
    pub fn ancestry(&self) -> Ancestry<'a, '_>
        requires { NodeIsKept self.now.current_node_id self.now.kind }
        ensures path { path_of result ≡ path_to self.now }
        ensures store { IsInStore result }
    {
        match &self.kind {
            AstNodeStoreKind::Full(nodes) => Ancestry::Nodes {
                nodes,
                current_node_id: self.current_node_id,
            },
            AstNodeStoreKind::Ancestry(stack) => Ancestry::Stack(stack),
        }
    }

    /// The nodes; none where a path was kept.
    pub fn into_nodes(self) -> AstNodes<'a>
        ensures { result ≡ nodes_kept self.entry.kind }
    {
        match self.kind {
            AstNodeStoreKind::Full(nodes) => nodes,
            AstNodeStoreKind::Ancestry(stack) => AstNodes::new(stack.allocator()),
        }
    }
}
