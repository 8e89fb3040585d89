//! The ways in which a name is used.
ghost use Rattle.std.specs.Prelude.{⊤, ◌≡◌, ◌==◌, [], ◌∷◌, codes, not};
ghost use Rattle.std.specs.Int.RustNames.{bit_and, bit_or};
ghost use Rattle.bitflags.specs.Sets.{without};

use bitflags::{Flag, Flags};

/// The ways in which a name is used.
#[derive(Clone, Copy, PartialEq, Eq, Debug, Default)]
pub struct ReferenceFlags {
    bits: u8,
}

impl ReferenceFlags {
    /// Its value is read.
    pub const Read: ReferenceFlags = ReferenceFlags { bits: 1 << 0 };

    /// It is written.
    pub const Write: ReferenceFlags = ReferenceFlags { bits: 1 << 1 };

    /// It is used as a type.
    pub const TypeFlag: ReferenceFlags = ReferenceFlags { bits: 1 << 2 };

    /// The type of its value is used, as by `typeof`.
    pub const ValueAsType: ReferenceFlags = ReferenceFlags { bits: 1 << 3 };

    /// It is used as a namespace.
    pub const Namespace: ReferenceFlags = ReferenceFlags { bits: 1 << 4 };

    /// A member of it is written.
    pub const MemberWriteTarget: ReferenceFlags = ReferenceFlags { bits: 1 << 5 };

    /// It is used by value.
    pub const Value: ReferenceFlags = ReferenceFlags {
        bits: Self::Read.bits | Self::Write.bits,
    };

    const FLAGS: &'static [Flag<ReferenceFlags>] = &[
        Flag {
            name: "Read",
            value: ReferenceFlags::Read,
        },
        Flag {
            name: "Write",
            value: ReferenceFlags::Write,
        },
        Flag {
            name: "Type",
            value: ReferenceFlags::TypeFlag,
        },
        Flag {
            name: "ValueAsType",
            value: ReferenceFlags::ValueAsType,
        },
        Flag {
            name: "Namespace",
            value: ReferenceFlags::Namespace,
        },
        Flag {
            name: "MemberWriteTarget",
            value: ReferenceFlags::MemberWriteTarget,
        },
    ];

    /// The empty set.
    pub fn empty() -> ReferenceFlags
        ensures { result.bits ≡ 0 }
    {
        <ReferenceFlags as Flags>::empty()
    }

    /// The set of a use that reads.
    pub fn read() -> ReferenceFlags
        ensures { result ≡ ReferenceFlags.Read }
    {
        ReferenceFlags::Read
    }

    /// The set of a use that writes.
    pub fn write() -> ReferenceFlags
        ensures { result ≡ ReferenceFlags.Write }
    {
        ReferenceFlags::Write
    }

    /// The set of a use that reads and writes.
    pub fn read_write() -> ReferenceFlags
        ensures { result ≡ ReferenceFlags.Value }
    {
        ReferenceFlags::Value
    }

    /// Whether all of `other` is in this set.
    pub fn contains(self, other: ReferenceFlags) -> bool
        ensures { result ≡ (bit_and self.bits other.bits == other.bits) }
    {
        Flags::contains(&self, other)
    }

    /// Whether some of `other` is in this set.
    pub fn intersects(self, other: ReferenceFlags) -> bool
        ensures { result ≡ not (bit_and self.bits other.bits == 0) }
    {
        Flags::intersects(&self, other)
    }

    /// The flags of either.
    pub fn union(self, other: ReferenceFlags) -> ReferenceFlags
        ensures { result.bits ≡ bit_or self.bits other.bits }
    {
        Flags::union(self, other)
    }

    /// The flags of this set without those of `other`.
    pub fn difference(self, other: ReferenceFlags) -> ReferenceFlags
        ensures { result.bits ≡ without 8 self.bits other.bits }
    {
        Flags::difference(self, other)
    }

    /// Whether no flag is set.
    pub fn is_empty(self) -> bool
        ensures { result ≡ (self.bits == 0) }
    {
        Flags::is_empty(&self)
    }

    /// Whether it reads.
    pub fn is_read(self) -> bool
        ensures { result ≡ not (bit_and self.bits ReferenceFlags.Read.bits == 0) }
    {
        self.intersects(ReferenceFlags::Read)
    }

    /// Whether it writes.
    pub fn is_write(self) -> bool
        ensures { result ≡ not (bit_and self.bits ReferenceFlags.Write.bits == 0) }
    {
        self.intersects(ReferenceFlags::Write)
    }

    /// Whether it is a type.
    pub fn is_type(self) -> bool
        ensures { result ≡ not (bit_and self.bits ReferenceFlags.TypeFlag.bits == 0) }
    {
        self.intersects(ReferenceFlags::TypeFlag)
    }

    /// Whether it reads or writes.
    pub fn is_value(self) -> bool
        ensures { result ≡ not (bit_and self.bits ReferenceFlags.Value.bits == 0) }
    {
        self.intersects(ReferenceFlags::Value)
    }

    /// Whether it is the type of a value.
    pub fn is_value_as_type(self) -> bool
        ensures { result ≡ not (bit_and self.bits ReferenceFlags.ValueAsType.bits == 0) }
    {
        self.intersects(ReferenceFlags::ValueAsType)
    }

    /// Whether it is a namespace.
    pub fn is_namespace(self) -> bool
        ensures { result ≡ not (bit_and self.bits ReferenceFlags.Namespace.bits == 0) }
    {
        self.intersects(ReferenceFlags::Namespace)
    }

    /// Whether a member of it is written.
    pub fn is_member_write_target(self) -> bool
        ensures { result ≡ not (bit_and self.bits ReferenceFlags.MemberWriteTarget.bits == 0) }
    {
        self.intersects(ReferenceFlags::MemberWriteTarget)
    }
}

impl Flags for ReferenceFlags {
    type Bits = u8;

    ghost exact = { ⊤ };

    ghost table = { (codes "Read", 1) ∷ (codes "Write", 2) ∷ (codes "Type", 4) ∷ (codes "ValueAsType", 8) ∷ (codes "Namespace", 16) ∷ (codes "MemberWriteTarget", 32) ∷ [] };

    ghost set_of = { λ f. f.bits };

    fn flags<'a>() -> &'a [Flag<ReferenceFlags>] {
        ReferenceFlags::FLAGS
    }

    fn bits(&self) -> u8 {
        self.bits
    }

    fn from_bits_retain(bits: u8) -> ReferenceFlags {
        ReferenceFlags { bits }
    }
}
