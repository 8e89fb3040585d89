//! Where a node stands in its tree.

ghost use Rattle.std.specs.Prelude.{◌≡◌, ◌+◌, ◌<◌, ◌^◌, ◌-◌, Some, None};
ghost use Rattle.semantic_tree.specs.Place.{child_place, root_place};

use semantic_kinds::{AstType, Role};

/// Where a node stands: how deep, in which role, and under which kinds.
#[derive(Clone, Copy, PartialEq, Eq, Debug)]
pub struct Place {
    pub depth: u32,
    pub role: Role,
    /// The kind of the parent.
    pub parent: Option<AstType>,
    /// The kind of the parent's parent.
    pub beyond: Option<AstType>,
}

impl Place {
    /// The place of a root.
    pub fn root() -> Place
        ensures { result ≡ root_place }
    {
        Place {
            depth: 0,
            role: Role::Root,
            parent: None,
            beyond: None,
        }
    }

    /// The place of a child in a role, where the parent of this kind stands here.
    pub fn of_child(self, kind: AstType, role: Role) -> Place
        requires { self.depth < 2 ^ 32 - 1 }
        ensures { result ≡ child_place self kind role }
    {
        Place {
            depth: self.depth + 1,
            role,
            parent: Some(kind),
            beyond: self.parent,
        }
    }
}
