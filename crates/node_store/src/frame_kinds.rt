//! What the frames of a stack show, from the top down.
ghost use Rattle.std.specs.Prelude.{◌≡◌, reverse, map};
ghost use Rattle.std.specs.Iterator.{YieldsFirstBy, item_count};
ghost use Rattle.node_store.specs.Left.{shown};

use semantic_tree::view::AstKind;
use std::marker::Model;

/// The frames that are left, from the top down. Contracts see what they show.
#[derive(Drop)]
pub(crate) struct FrameKinds<'n, 'a> {
    frames: &'n [AstKind<'a>],
    /// How many are left, counted from the bottom.
    left: usize,
}

impl<'n, 'a> Model for FrameKinds<'n, 'a> {
    ghost use Rattle.std.specs.Prelude.{List, map, reverse, take, length, ◌≤◌};
    ghost use Rattle.semantic_tree.specs.declared.node.Node.{Node};
    ghost use Rattle.std.specs.Coded.{codes};
    ghost use Rattle.semantic_tree.specs.contracts.node.Node as node;

    ghost Value = { List Node };

    ghost coded = { Prim.hlevel (codes, node.the_row.coded) };

    ghost use Rattle.node_store.specs.Left.{shown};

    ghost view = { λ a. map shown (reverse (take a.left a.frames.now)) };

    ghost invariant = { λ a. a.left ≤ length a.frames.now };
}

impl<'n, 'a> FrameKinds<'n, 'a> {
    /// All of some frames.
    #[tactic(auto, using(crate::proofs::Frames::whole))]
    pub(crate) fn new(frames: &'n [AstKind<'a>]) -> FrameKinds<'n, 'a>
        ensures { result ≡ map shown (reverse frames.now) }
    {
        FrameKinds {
            frames,
            left: frames.len(),
        }
    }

    /// The same frames, still to be taken.
    pub(crate) fn again(&self) -> FrameKinds<'n, 'a>
        ensures { result ≡ self.now }
    {
        FrameKinds {
            frames: self.frames,
            left: self.left,
        }
    }
}

impl<'n, 'a> Iterator for FrameKinds<'n, 'a> {
    type Item = AstKind<'a>;

    ghost next_gives = { YieldsFirstBy shown (λ s. s) };

    ghost remaining = { item_count (λ s. s) };

    #[tactic(auto, using(crate::proofs::Frames::top, crate::proofs::Frames::bottom))]
    fn next(&mut self) -> Option<AstKind<'a>> {
        if self.left == 0 {
            return None;
        }
        self.left -= 1;
        Some(self.frames[self.left])
    }
}
