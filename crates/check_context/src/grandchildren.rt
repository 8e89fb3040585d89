//! The children of a node's children.
ghost use Rattle.std.specs.Prelude.{◌≡◌, flat_map};
ghost use Rattle.std.specs.Iterator.{YieldsFirstBy, item_count};
ghost use Rattle.semantic_tree.specs.ChildIter.{shown};
ghost use Rattle.semantic_tree.specs.Views.{all_in};
ghost use Rattle.check_context.specs.Grandchildren.{grandchildren_left};

use semantic_tree::{AstKind, ChildIter, Role};

/// The children in one role of a node's children in another role, as the members of a class, which are the body of its
/// body.
#[derive(Clone, Copy)]
pub struct Grandchildren<'a> {
    outer: ChildIter<'a>,
    inner: ChildIter<'a>,
    role: Role,
}

impl<'a> Grandchildren<'a> {
    /// The children in the inner role of the node's children in the outer role, in visiting order.
    pub fn new(kind: AstKind<'a>, outer: Role, inner: Role) -> Grandchildren<'a>
        ensures { grandchildren_left result
            ≡ flat_map (all_in inner) (all_in outer kind.entry.node.now) }
    {
        let mut left = kind.children(outer);
        let below = match left.next() {
            Some(first) => first.children(inner),
            None => left,
        };
        Grandchildren {
            outer: left,
            inner: below,
            role: inner,
        }
    }
}

impl<'a> Iterator for Grandchildren<'a> {
    type Item = AstKind<'a>;

    ghost next_gives = { YieldsFirstBy shown grandchildren_left };

    ghost remaining = { item_count grandchildren_left };

    fn next(&mut self) -> Option<AstKind<'a>> {
        if let Some(found) = self.inner.next() {
            return Some(found);
        }
        while let Some(child) = self.outer.next() {
            self.inner = child.children(self.role);
            if let Some(found) = self.inner.next() {
                return Some(found);
            }
        }
        None
    }
}
