//! Names that nodes are given.

ghost use Rattle.std.specs.Prelude.{◌≡◌, option_map};
ghost use Rattle.std.specs.Str.{chars};

use semantic_syntax::NodeId;

/// Which nodes are given names, and which names.
pub trait GivenNames {
    ghost use Rattle.std.specs.Prelude.{ℕ, List, Option};

    /// The name of each node that is given one.
    ghost given: { Self → ℕ → Option (List ℕ) };

    /// The name that the node is given, if any.
    fn name_of(&self, node: NodeId) -> Option<&str>
        ensures { option_map (λ name. chars name.now) result ≡ given self.now node };
}
