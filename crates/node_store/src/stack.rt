//! The path to the current node, kept as a stack.
ghost use Rattle.std.specs.Prelude.{◌≡◌, ◌<◌, [], ◌∷◌, Some, OnOk, OnErr, drop, length, option_map};
ghost use Rattle.semantic_tree.specs.ChildIter.{shown};
ghost use Rattle.semantic_tree.specs.Nodes.{first_of};
ghost use Rattle.node_store.specs.Path.{current_id_in, parent_id_in, parent_on_path, from_asked, from_node, IsOn};
ghost use Rattle.node_store.specs.PathLeft.{path_left};

use crate::ancestor_kinds::AncestorKinds;
use semantic_syntax::NodeId;
use semantic_tree::view::AstKind;
use std::alloc::{AllocError, Global};
use std::marker::Model;

/// The path from the current node to the root. Contracts see what its nodes show, the current one
/// first and the root last.
#[derive(Drop)]
pub struct AncestryStack<'a> {
    frames: Vec<AstKind<'a>>,
}

impl<'a> Model for AncestryStack<'a> {
    ghost use Rattle.std.specs.Prelude.{List, map, reverse};
    ghost use Rattle.semantic_tree.specs.declared.node.Node.{Node};
    ghost use Rattle.std.specs.Coded.{codes};
    ghost use Rattle.semantic_tree.specs.contracts.node.Node as node;

    ghost Value = { List Node };

    ghost coded = { Prim.hlevel (codes, node.the_row.coded) };

    ghost use Rattle.node_store.specs.Left.{shown};

    ghost view = { λ a. map shown (reverse a.frames.items) };
}

impl<'a> AncestryStack<'a> {
    /// A stack without frames.
    pub fn new(alloc: Global) -> AncestryStack<'a>
        ensures { result ≡ [] }
    {
        AncestryStack {
            frames: Vec::new(alloc),
        }
    }

    /// Where the frames are kept.
    pub(crate) fn allocator(&self) -> Global {
        *self.frames.allocator()
    }

    /// Goes down to a node, which is then the current one. For want of memory the stack is as before.
    #[tactic(auto, using(crate::proofs::Frames::pushed))]
    pub fn push(&mut self, kind: AstKind<'a>) -> Result<(), AllocError>
        ensures ok { OnOk result (self.new ≡ kind.entry.node.now ∷ self.old) }
        ensures err { OnErr result (self.new ≡ self.old) }
    {
        match self.frames.push(kind) {
            Ok(()) => Ok(()),
            Err(_) => Err(AllocError),
        }
    }

    /// Goes back up to the parent. On an empty stack nothing happens.
    #[tactic(auto, using(crate::proofs::Frames::popped))]
    pub fn pop(&mut self)
        ensures { self.new ≡ drop 1 self.old }
    {
        self.frames.pop();
    }

    /// The whole path, the current node first.
    pub(crate) fn outward(&self) -> AncestorKinds<'_, 'a>
        ensures { path_left result ≡ self.now }
    {
        AncestorKinds::of_frames(self.frames.as_slice())
    }

    /// What the current node shows, if there is one.
    #[tactic(auto, using(crate::proofs::Frames::tops))]
    #[inline(always)]
    pub fn current(&self) -> Option<AstKind<'a>>
        ensures { option_map shown result ≡ first_of self.now }
    {
        self.frames.last().copied()
    }

    /// What the parent of the current node shows, if it has one.
    #[tactic(auto, using(crate::proofs::Frames::tops))]
    pub fn parent(&self) -> Option<AstKind<'a>>
        ensures { option_map shown result ≡ first_of (drop 1 self.now) }
    {
        let above = self.frames.len().checked_sub(2)?;
        self.frames.get(above).copied()
    }

    /// The id of the current node, or 0 where there is none.
    pub fn current_node_id(&self) -> NodeId
        ensures { result ≡ current_id_in self.now }
    {
        self.outward().current_node_id()
    }

    /// The id of the parent of the current node, or 0 where there is none.
    pub fn parent_node_id(&self) -> NodeId
        ensures { result ≡ parent_id_in self.now }
    {
        self.outward().parent_node_id()
    }

    /// What the current node shows.
    pub fn current_kind(&self) -> AstKind<'a>
        requires { 0 < length self.now }
        ensures { first_of self.now ≡ Some result.node.now }
    {
        self.outward().current_kind()
    }

    /// Where the current node is in the tree: its preorder place.
    pub fn current_address(&self) -> NodeId
        requires { 0 < length self.now }
        ensures { result ≡ current_id_in self.now }
    {
        self.outward().current_node_id()
    }

    /// What the parent of the current node shows; of a single frame, what this shows itself.
    pub fn parent_kind(&self) -> AstKind<'a>
        requires { 0 < length self.now }
        ensures { parent_on_path self.now ≡ Some result.node.now }
    {
        self.outward().parent_kind()
    }

    /// What the nodes above the current one show, its parent first.
    pub fn ancestor_kinds(&self) -> AncestorKinds<'_, 'a>
        ensures { path_left result ≡ drop 1 self.now }
    {
        self.outward().above()
    }

    /// What the nodes on the path show from the one with this id on, or from the current one on where
    /// none is asked for; nothing where it is not on the path.
    pub fn ancestor_kinds_from(&self, from: Option<NodeId>) -> AncestorKinds<'_, 'a>
        ensures { path_left result ≡ from_asked from self.now }
    {
        self.outward().from_asked(from)
    }

    /// What the node with this id shows, which is on the path.
    pub fn find_kind_by_node_id(&self, n: NodeId) -> AstKind<'a>
        requires { IsOn n self.now }
        ensures { first_of (from_node n self.now) ≡ Some result.node.now }
    {
        self.outward().find_kind(n)
    }
}
