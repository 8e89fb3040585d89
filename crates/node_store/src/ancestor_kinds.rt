//! What the nodes on a path show, whichever way the path is kept.
ghost use Rattle.std.specs.Prelude.{⊤, ◌≡◌, ◌<◌, Some, drop, length, map, reverse};
ghost use Rattle.semantic_tree.specs.Nodes.{first_of};
ghost use Rattle.std.specs.Iterator.{YieldsFirstBy, item_count};
ghost use Rattle.node_store.specs.Left.{shown};
ghost use Rattle.node_store.specs.Path.{current_id_in, parent_id_in, parent_on_path, from_asked, from_node, IsOn};
ghost use Rattle.node_store.specs.PathLeft.{path_left};

use crate::ancestors::AstNodeKindAncestorsIter;
use crate::frame_kinds::FrameKinds;
use semantic_syntax::NodeId;
use semantic_tree::view::AstKind;
use std::alloc::AllocError;

/// Where the path is kept.
#[derive(Drop)]
enum Way<'n, 'a> {
    Store(AstNodeKindAncestorsIter<'n, 'a>),
    Frames(FrameKinds<'n, 'a>),
}

/// What the nodes that are left on a path show, inner first.
#[derive(Drop)]
pub struct AncestorKinds<'n, 'a> {
    way: Way<'n, 'a>,
}

impl<'n, 'a> AncestorKinds<'n, 'a> {
    /// A path in a store.
    pub(crate) fn in_store(way: AstNodeKindAncestorsIter<'n, 'a>) -> AncestorKinds<'n, 'a>
        ensures { path_left result ≡ way.entry }
    {
        AncestorKinds {
            way: Way::Store(way),
        }
    }

    /// A path that is kept as frames, the inner one last.
    pub(crate) fn of_frames(frames: &'n [AstKind<'a>]) -> AncestorKinds<'n, 'a>
        ensures { path_left result ≡ map shown (reverse frames.now) }
    {
        AncestorKinds {
            way: Way::Frames(FrameKinds::new(frames)),
        }
    }

    /// The same path, still to be taken.
    fn again(&self) -> AncestorKinds<'n, 'a>
        ensures { path_left result ≡ path_left self.now }
    {
        let way = match &self.way {
            Way::Store(way) => Way::Store(way.again()),
            Way::Frames(frames) => Way::Frames(frames.again()),
        };
        AncestorKinds { way }
    }

    /// What the first node shows.
    pub(crate) fn current_kind(self) -> AstKind<'a>
        requires { 0 < length (path_left self) }
        ensures { first_of (path_left self.entry) ≡ Some result.node.now }
    {
        let mut left = self;
        left.next().unwrap()
    }

    /// The id of the first node, or 0 where there is none.
    pub(crate) fn current_node_id(self) -> NodeId
        ensures { result ≡ current_id_in (path_left self.entry) }
    {
        let mut left = self;
        match left.next() {
            Some(kind) => kind.node_id(),
            None => NodeId::ROOT,
        }
    }

    /// What the second node shows, or the first where it stands alone.
    pub(crate) fn parent_kind(self) -> AstKind<'a>
        requires { 0 < length (path_left self) }
        ensures { parent_on_path (path_left self.entry) ≡ Some result.node.now }
    {
        let mut left = self;
        let current = left.next().unwrap();
        match left.next() {
            Some(parent) => parent,
            None => current,
        }
    }

    /// The id of the second node, or 0 where there is none.
    pub(crate) fn parent_node_id(self) -> NodeId
        ensures { result ≡ parent_id_in (path_left self.entry) }
    {
        self.above().current_node_id()
    }

    /// The path without its first node.
    pub(crate) fn above(self) -> AncestorKinds<'n, 'a>
        ensures { path_left result ≡ drop 1 (path_left self.entry) }
    {
        let mut left = self;
        left.next();
        left
    }

    /// The path from the node with this id on, or the whole path where none is asked for.
    pub(crate) fn from_asked(self, from: Option<NodeId>) -> AncestorKinds<'n, 'a>
        ensures { path_left result ≡ from_asked from (path_left self.entry) }
    {
        match from {
            Some(id) => self.from_node(id),
            None => self,
        }
    }

    /// The path from the node with this id on; empty where it has none.
    pub(crate) fn from_node(self, id: NodeId) -> AncestorKinds<'n, 'a>
        ensures { path_left result ≡ from_node id (path_left self.entry) }
    {
        let mut left = self;
        let mut rest = left.again();
        while let Some(kind) = rest.next() {
            if kind.node_id() == id {
                return left;
            }
            left.next();
        }
        left
    }
}

impl<'n, 'a> AncestorKinds<'n, 'a> {
    /// What the node with this id shows, which is on the path.
    #[tactic(auto, using(crate::proofs::Frames::found))]
    pub(crate) fn find_kind(self, id: NodeId) -> AstKind<'a>
        requires { IsOn id (path_left self) }
        ensures { first_of (from_node id (path_left self.entry)) ≡ Some result.node.now }
    {
        self.from_node(id).current_kind()
    }
}

impl<'n, 'a> Clone for AncestorKinds<'n, 'a> {
    ghost is_clone = { λ a b. path_left b ≡ path_left a };

    ghost is_infallible = { λ a. ⊤ };

    fn clone(&self) -> Result<AncestorKinds<'n, 'a>, AllocError> {
        Ok(self.again())
    }
}

impl<'n, 'a> Iterator for AncestorKinds<'n, 'a> {
    type Item = AstKind<'a>;

    ghost next_gives = { YieldsFirstBy shown path_left };

    ghost remaining = { item_count path_left };

    fn next(&mut self) -> Option<AstKind<'a>> {
        match &mut self.way {
            Way::Store(way) => way.next(),
            Way::Frames(frames) => frames.next(),
        }
    }
}
