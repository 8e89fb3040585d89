//! The numbers by which nodes, scopes, symbols, references, classes and elements are known.
//!
//! Each id orders, compares and hashes as its number, and contracts see that number.
ghost use Rattle.std.specs.Prelude.{◌≡◌, ◌<◌};

use std::marker::Model;

/// The id of a node: its number in preorder, from 0.
#[derive(Clone, Copy, PartialEq, Eq, PartialOrd, Ord, Hash, Debug)]
pub struct NodeId {
    number: u32,
}

impl Model for NodeId {
    ghost use Rattle.std.specs.Prelude.{ℕ};
    ghost use Rattle.std.specs.Prelude.{◌<◌, ◌-◌, ◌^◌};

    ghost Value = { ℕ };

    ghost view = { λ a. a.number };

    ghost invariant = { λ a. a.number < 2 ^ 32 - 1 };

    ghost inverse = { λ n. record { number = n } };
}

impl NodeId {
    /// The root, which is the `Program`.
    pub const ROOT: NodeId = NodeId { number: 0 };

    /// The id with this number.
    pub fn new(n: u32) -> NodeId
        requires { n < u32.MAX }
        ensures { result ≡ n }
    {
        NodeId { number: n }
    }

    /// The number, as an index.
    pub fn index(self) -> usize
        ensures { result ≡ self }
    {
        self.number as usize
    }
}

/// The id of a scope: its number in order of opening, from 0.
#[derive(Clone, Copy, PartialEq, Eq, PartialOrd, Ord, Hash, Debug)]
pub struct ScopeId {
    number: u32,
}

impl Model for ScopeId {
    ghost use Rattle.std.specs.Prelude.{ℕ};
    ghost use Rattle.std.specs.Prelude.{◌<◌, ◌-◌, ◌^◌};

    ghost Value = { ℕ };

    ghost view = { λ a. a.number };

    ghost invariant = { λ a. a.number < 2 ^ 32 - 1 };

    ghost inverse = { λ n. record { number = n } };
}

impl ScopeId {
    /// The id with this number.
    pub fn new(n: u32) -> ScopeId
        requires { n < u32.MAX }
        ensures { result ≡ n }
    {
        ScopeId { number: n }
    }

    /// The number, as an index.
    pub fn index(self) -> usize
        ensures { result ≡ self }
    {
        self.number as usize
    }
}

/// The id of a symbol: its number in order of declaring, from 0.
#[derive(Clone, Copy, PartialEq, Eq, PartialOrd, Ord, Hash, Debug)]
pub struct SymbolId {
    number: u32,
}

impl Model for SymbolId {
    ghost use Rattle.std.specs.Prelude.{ℕ};
    ghost use Rattle.std.specs.Prelude.{◌<◌, ◌-◌, ◌^◌};

    ghost Value = { ℕ };

    ghost view = { λ a. a.number };

    ghost invariant = { λ a. a.number < 2 ^ 32 - 1 };

    ghost inverse = { λ n. record { number = n } };
}

impl SymbolId {
    /// The id with this number.
    pub fn new(n: u32) -> SymbolId
        requires { n < u32.MAX }
        ensures { result ≡ n }
    {
        SymbolId { number: n }
    }

    /// The number, as an index.
    pub fn index(self) -> usize
        ensures { result ≡ self }
    {
        self.number as usize
    }
}

/// The id of a reference: its number in preorder, from 0. The default fills free places of lists.
#[derive(Clone, Copy, PartialEq, Eq, PartialOrd, Ord, Hash, Debug, Default)]
pub struct ReferenceId {
    number: u32,
}

impl Model for ReferenceId {
    ghost use Rattle.std.specs.Prelude.{ℕ};
    ghost use Rattle.std.specs.Prelude.{◌<◌, ◌-◌, ◌^◌};

    ghost Value = { ℕ };

    ghost view = { λ a. a.number };

    ghost invariant = { λ a. a.number < 2 ^ 32 - 1 };

    ghost inverse = { λ n. record { number = n } };
}

impl ReferenceId {
    /// The id with this number.
    pub fn new(n: u32) -> ReferenceId
        requires { n < u32.MAX }
        ensures { result ≡ n }
    {
        ReferenceId { number: n }
    }

    /// The number, as an index.
    pub fn index(self) -> usize
        ensures { result ≡ self }
    {
        self.number as usize
    }
}

/// The id of a class: its number in preorder, from 0.
#[derive(Clone, Copy, PartialEq, Eq, PartialOrd, Ord, Hash, Debug)]
pub struct ClassId {
    number: u32,
}

impl Model for ClassId {
    ghost use Rattle.std.specs.Prelude.{ℕ};
    ghost use Rattle.std.specs.Prelude.{◌<◌, ◌-◌, ◌^◌};

    ghost Value = { ℕ };

    ghost view = { λ a. a.number };

    ghost invariant = { λ a. a.number < 2 ^ 32 - 1 };

    ghost inverse = { λ n. record { number = n } };
}

impl ClassId {
    /// The id with this number.
    pub fn new(n: u32) -> ClassId
        requires { n < u32.MAX }
        ensures { result ≡ n }
    {
        ClassId { number: n }
    }

    /// The number, as an index.
    pub fn index(self) -> usize
        ensures { result ≡ self }
    {
        self.number as usize
    }
}

/// The id of an element of a class: its position in the class.
#[derive(Clone, Copy, PartialEq, Eq, PartialOrd, Ord, Hash, Debug)]
pub struct ElementId {
    number: u32,
}

impl Model for ElementId {
    ghost use Rattle.std.specs.Prelude.{ℕ};
    ghost use Rattle.std.specs.Prelude.{◌<◌, ◌-◌, ◌^◌};

    ghost Value = { ℕ };

    ghost view = { λ a. a.number };

    ghost invariant = { λ a. a.number < 2 ^ 32 - 1 };

    ghost inverse = { λ n. record { number = n } };
}

impl ElementId {
    /// The id with this number.
    pub fn new(n: u32) -> ElementId
        requires { n < u32.MAX }
        ensures { result ≡ n }
    {
        ElementId { number: n }
    }

    /// The number, as an index.
    pub fn index(self) -> usize
        ensures { result ≡ self }
    {
        self.number as usize
    }
}
