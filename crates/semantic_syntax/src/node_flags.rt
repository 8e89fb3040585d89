//! The marks that a user of the node store may keep at a node.
ghost use Rattle.std.specs.Prelude.{⊤, ◌≡◌, ◌==◌, [], ◌∷◌, codes, not};
ghost use Rattle.std.specs.Int.RustNames.{bit_and, bit_or};
ghost use Rattle.bitflags.specs.Sets.{without};

use bitflags::{Flag, Flags};

/// Eight marks of a node that have no names; a build sets none of them.
#[derive(Clone, Copy, PartialEq, Eq, Debug, Default)]
pub struct NodeFlags {
    bits: u8,
}

impl NodeFlags {
    const FLAGS: &'static [Flag<NodeFlags>] = &[];

    /// The empty set.
    pub fn empty() -> NodeFlags
        ensures { result.bits ≡ 0 }
    {
        <NodeFlags as Flags>::empty()
    }

    /// Whether all of `other` is in this set.
    pub fn contains(self, other: NodeFlags) -> bool
        ensures { result ≡ (bit_and self.bits other.bits == other.bits) }
    {
        Flags::contains(&self, other)
    }

    /// Whether some of `other` is in this set.
    pub fn intersects(self, other: NodeFlags) -> bool
        ensures { result ≡ not (bit_and self.bits other.bits == 0) }
    {
        Flags::intersects(&self, other)
    }

    /// The flags of either.
    pub fn union(self, other: NodeFlags) -> NodeFlags
        ensures { result.bits ≡ bit_or self.bits other.bits }
    {
        Flags::union(self, other)
    }

    /// The flags of this set without those of `other`.
    pub fn difference(self, other: NodeFlags) -> NodeFlags
        ensures { result.bits ≡ without 8 self.bits other.bits }
    {
        Flags::difference(self, other)
    }

    /// Whether no flag is set.
    pub fn is_empty(self) -> bool
        ensures { result ≡ (self.bits == 0) }
    {
        Flags::is_empty(&self)
    }
}

impl Flags for NodeFlags {
    type Bits = u8;

    ghost exact = { ⊤ };

    ghost table = { [] };

    ghost set_of = { λ f. f.bits };

    fn flags<'a>() -> &'a [Flag<NodeFlags>] {
        NodeFlags::FLAGS
    }

    fn bits(&self) -> u8 {
        self.bits
    }

    fn from_bits_retain(bits: u8) -> NodeFlags {
        NodeFlags { bits }
    }
}
