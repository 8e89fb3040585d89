//! What an element of a class is.
ghost use Rattle.std.specs.Prelude.{⊤, ◌≡◌, ◌==◌, [], ◌∷◌, codes, not};
ghost use Rattle.std.specs.Int.RustNames.{bit_and, bit_or};
ghost use Rattle.bitflags.specs.Sets.{without};

use bitflags::{Flag, Flags};

/// What an element of a class is.
#[derive(Clone, Copy, PartialEq, Eq, Debug, Default)]
pub struct ElementKind {
    bits: u8,
}

impl ElementKind {
    /// An `accessor` property.
    pub const Accessor: ElementKind = ElementKind { bits: 1 << 0 };

    /// A method; getters and setters have this flag, too.
    pub const Method: ElementKind = ElementKind { bits: 1 << 1 };

    /// A property (a field), with or without initializer.
    pub const Property: ElementKind = ElementKind { bits: 1 << 2 };

    /// A getter, which is a method, too.
    pub const Getter: ElementKind = ElementKind { bits: 1 << 3 };

    /// A setter, which is a method, too.
    pub const Setter: ElementKind = ElementKind { bits: 1 << 4 };

    /// A getter or a setter.
    pub const SetterOrGetter: ElementKind = ElementKind {
        bits: Self::Getter.bits | Self::Setter.bits,
    };

    const FLAGS: &'static [Flag<ElementKind>] = &[
        Flag {
            name: "Accessor",
            value: ElementKind::Accessor,
        },
        Flag {
            name: "Method",
            value: ElementKind::Method,
        },
        Flag {
            name: "Property",
            value: ElementKind::Property,
        },
        Flag {
            name: "Getter",
            value: ElementKind::Getter,
        },
        Flag {
            name: "Setter",
            value: ElementKind::Setter,
        },
    ];

    /// The empty set.
    pub fn empty() -> ElementKind
        ensures { result.bits ≡ 0 }
    {
        <ElementKind as Flags>::empty()
    }

    /// Whether all of `other` is in this set.
    pub fn contains(self, other: ElementKind) -> bool
        ensures { result ≡ (bit_and self.bits other.bits == other.bits) }
    {
        Flags::contains(&self, other)
    }

    /// Whether some of `other` is in this set.
    pub fn intersects(self, other: ElementKind) -> bool
        ensures { result ≡ not (bit_and self.bits other.bits == 0) }
    {
        Flags::intersects(&self, other)
    }

    /// The flags of either.
    pub fn union(self, other: ElementKind) -> ElementKind
        ensures { result.bits ≡ bit_or self.bits other.bits }
    {
        Flags::union(self, other)
    }

    /// The flags of this set without those of `other`.
    pub fn difference(self, other: ElementKind) -> ElementKind
        ensures { result.bits ≡ without 8 self.bits other.bits }
    {
        Flags::difference(self, other)
    }

    /// Whether no flag is set.
    pub fn is_empty(self) -> bool
        ensures { result ≡ (self.bits == 0) }
    {
        Flags::is_empty(&self)
    }

    /// Whether it is a getter or a setter.
    pub fn is_setter_or_getter(self) -> bool
        ensures { result ≡ not (bit_and self.bits ElementKind.SetterOrGetter.bits == 0) }
    {
        self.intersects(ElementKind::SetterOrGetter)
    }
}

impl Flags for ElementKind {
    type Bits = u8;

    ghost exact = { ⊤ };

    ghost table = { (codes "Accessor", 1) ∷ (codes "Method", 2) ∷ (codes "Property", 4) ∷ (codes "Getter", 8) ∷ (codes "Setter", 16) ∷ [] };

    ghost set_of = { λ f. f.bits };

    fn flags<'a>() -> &'a [Flag<ElementKind>] {
        ElementKind::FLAGS
    }

    fn bits(&self) -> u8 {
        self.bits
    }

    fn from_bits_retain(bits: u8) -> ElementKind {
        ElementKind { bits }
    }
}
