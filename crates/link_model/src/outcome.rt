//! What imports come to.

use semantic_syntax::{NodeId, SymbolId};

/// What an import reaches, through any number of exports. Modules are told by their numbers in the set.
#[derive(Clone, Copy, PartialEq, Eq, Debug)]
pub enum LinkOutcome {
    /// This symbol of this module, and nothing else.
    Symbol(u32, SymbolId),
    /// The default export of this module, which has no symbol.
    Default(u32),
    /// All that this module exports.
    Namespace(u32),
    /// What a module outside of the set exports.
    External,
    /// Nothing.
    Missing,
    /// Nothing but a name that leads to itself.
    Ring,
    /// Things that differ.
    Ambiguous,
}

/// What an import specifier comes to.
#[derive(Clone, Copy, PartialEq, Eq, Debug)]
pub struct Link {
    /// The number of the module with the import.
    pub module: u32,
    /// The import specifier.
    pub node: NodeId,
    pub outcome: LinkOutcome,
}
