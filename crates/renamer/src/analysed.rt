//! What an analysis tells of nodes.

ghost use Rattle.std.specs.Prelude.{◌≡◌};
ghost use Rattle.semantic_model.specs.Analysis.{symbol_at, tied_at};
ghost use Rattle.renamer.specs.Told.{told_by};

use scoping::{NodeTables, Scoping};
use semantic_syntax::{NodeId, SymbolId};

/// The tables of a program, and what belongs to its nodes.
#[derive(Clone, Copy)]
pub struct Analysed<'a> {
    pub scoping: &'a Scoping,
    pub tables: &'a NodeTables,
}

impl Analysed<'_> {
    /// The symbol that the node declares, if any.
    pub fn symbol_at(&self, node: NodeId) -> Option<SymbolId>
        ensures { result ≡ symbol_at (told_by self.now) node }
    {
        semantic::node_symbols::symbol_at(self.tables, node)
    }

    /// The symbol to which the node is tied, if any.
    pub fn tied_at(&self, node: NodeId) -> Option<SymbolId>
        ensures { result ≡ tied_at (told_by self.now) node }
    {
        semantic::node_symbols::tied_at(self.scoping, self.tables, node)
    }
}
