//! A module with its analysis.
ghost use Rattle.std.specs.Prelude.{◌≡◌, option_map};
ghost use Rattle.semantic_tree.specs.ChildIter.{shown};
ghost use Rattle.link_model.specs.Leads.{symbol_of_name};
ghost use Rattle.module_linker.specs.AnalysedIn.{ties_in};

use module_set::Module;
use scoping::{NodeTables, Scoping};
use semantic::node_symbols::{symbol_at, tied_at};
use semantic_syntax::{NodeId, SymbolId};
use semantic_tree::AstKind;

/// A module, its number in the set, the tables of its program and what belongs to its nodes.
#[derive(Clone, Copy)]
pub struct AnalysedModule<'s, 'a> {
    pub number: u32,
    pub module: &'a Module,
    pub scoping: &'s Scoping,
    pub tables: &'s NodeTables,
}

impl AnalysedModule<'_, '_> {
    /// The symbol that the node declares, if any.
    pub(crate) fn declared(&self, node: NodeId) -> Option<SymbolId>
        ensures { result ≡ (ties_in self.now).declared node }
    {
        symbol_at(self.tables, node)
    }

    /// The symbol to which the node is tied, if any.
    pub(crate) fn tied(&self, node: NodeId) -> Option<SymbolId>
        ensures { result ≡ (ties_in self.now).tied node }
    {
        tied_at(self.scoping, self.tables, node)
    }

    /// The symbol that a name declares, if there is a name.
    pub(crate) fn symbol_of_name(&self, name: &Option<AstKind<'_>>) -> Option<SymbolId>
        ensures { result ≡ symbol_of_name (ties_in self.now) (option_map shown name.now) }
    {
        match name {
            Some(name) => self.declared(name.node_id()),
            None => None,
        }
    }
}
