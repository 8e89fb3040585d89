//! Where the names lead that a module declares or imports.
ghost use Rattle.std.specs.Prelude.{◌≡◌, option_map};
ghost use Rattle.semantic_tree.specs.ChildIter.{shown};
ghost use Rattle.module_linker.specs.LocalTargets.{symbol_target, local_target, declared_target, default_target};
ghost use Rattle.module_linker.specs.AnalysedIn.{ties_in};
ghost use Rattle.module_linker.specs.ScopeOf.{imported_in};

use crate::analysed_module::AnalysedModule;
use indexmap::IndexMap;
use link_search::{Target, Terminal};
use module_entries::entries::ModuleEntries;
use semantic_syntax::{NodeId, SymbolId};
use semantic_tree::{AstKind, AstType};

/// A module whose imports are known.
#[derive(Clone, Copy)]
pub(crate) struct ModuleScope<'s, 'a> {
    pub analysed: &'s AnalysedModule<'s, 'a>,
    pub entries: &'s ModuleEntries<'a>,
    /// Where the first import of each symbol leads that an import binds.
    pub imported: &'s IndexMap<u32, Target>,
}

impl ModuleScope<'_, '_> {
    /// Where a symbol leads: where its import does, if it has one.
    fn symbol_target(&self, symbol: SymbolId) -> Target
        ensures { result ≡ symbol_target self.now.analysed.now.number symbol
            (imported_in self.now symbol) }
    {
        let number = symbol.index() as u32;
        match self.imported.get(&number) {
            Some(target) => *target,
            None => Target::End(Terminal::Symbol(self.analysed.number, symbol)),
        }
    }

    /// Where a local leads: where its symbol does, if it is a reference that is tied to one.
    pub fn local_target(&self, local: &Option<AstKind<'_>>) -> Option<Target>
        ensures { result ≡ local_target self.now.analysed.now.number (ties_in self.now.analysed.now)
            (imported_in self.now) (option_map shown local.now) }
    {
        match local {
            Some(local) if local.ty() == AstType::IdentifierReference => {
                let symbol = self.analysed.tied(local.node_id())?;
                Some(self.symbol_target(symbol))
            }
            _ => None,
        }
    }

    /// Where a declared name leads.
    pub fn declared_target(&self, name: NodeId) -> Option<Target>
        ensures { result ≡ declared_target self.now.analysed.now.number
            ((ties_in self.now.analysed.now).declared name) }
    {
        let symbol = self.analysed.declared(name)?;
        Some(Target::End(Terminal::Symbol(self.analysed.number, symbol)))
    }

    /// Where the default export leads, which may have a name.
    pub fn default_target(&self, name: &Option<AstKind<'_>>) -> Option<Target>
        ensures { result ≡ default_target self.now.analysed.now.number
            (ties_in self.now.analysed.now) (option_map shown name.now) }
    {
        match name {
            Some(name) => self.declared_target(name.node_id()),
            None => Some(Target::End(Terminal::Default(self.analysed.number))),
        }
    }
}
