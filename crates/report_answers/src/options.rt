//! What a report tells besides tables, unused labels and diagnostics.

/// What a report tells besides tables, unused labels and diagnostics.
#[derive(Clone, Copy, Debug, PartialEq, Eq, Default)]
pub struct Options {
    /// The nodes, each with its kind, its parent and the scope where it stands. They are told where the analysis kept
    /// them.
    pub nodes: bool,
    /// The classes, with their elements and the uses of private names. They are told where the analysis noted them.
    pub classes: bool,
    /// How many nodes, scopes, symbols and references there are.
    pub stats: bool,
}
