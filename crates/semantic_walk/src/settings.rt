//! The settings of an analysis.

ghost use Rattle.std.specs.Prelude.{◌≡◌};
ghost use Rattle.semantic_walk.specs.Begun.{notes_classes};

/// For how many nodes, scopes, symbols and references an analysis makes room before it begins. It changes no answer.
#[derive(Clone, Copy)]
pub struct Room {
    pub nodes: u32,
    pub scopes: u32,
    pub symbols: u32,
    pub references: u32,
}

/// What an analysis keeps, notes and tells.
#[derive(Clone, Copy)]
pub struct Settings {
    /// Whether the nodes of the program are kept.
    pub build_nodes: bool,
    /// Whether its classes are noted.
    pub class_table: bool,
    /// Whether early errors are told. Classes are noted then, too.
    pub checks: bool,
    pub room: Room,
}

impl Settings {
    /// Whether classes are noted, which checks look at, too.
    pub(crate) fn notes_classes(self) -> bool
        ensures { result ≡ notes_classes self }
    {
        self.class_table || self.checks
    }
}
