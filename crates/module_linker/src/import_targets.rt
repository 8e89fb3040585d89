//! Where the imports of a module lead.
ghost use Rattle.std.specs.Prelude.{◌≡◌, [], ◌∷◌, ◌++◌, map, nat_eq, IfOk, OnOk};
ghost use Rattle.std.specs.Map.{lookup};
ghost use Rattle.link_model.specs.Leads.{import_end};
ghost use Rattle.link_targets.specs.Denoted.{AreDenoted, Grows};
ghost use Rattle.module_entries.specs.Views.{shown_import};
ghost use Rattle.module_linker.specs.ImportsLead.{with_bound, AddsImport, ImportsLead};
ghost use Rattle.module_linker.specs.AnalysedIn.{ties_in};

use crate::analysed_module::AnalysedModule;
use link_search::{Target, Terminal};
use module_entries::import::ImportEntry;
use module_entries::module_names::ModuleNames;
use module_entries::texts::Texts;
use module_entries::wanted_target::wanted_target;
use semantic_syntax::SymbolId;
use std::alloc::{AllocError, Global};

/// Where the imports of a module lead.
#[derive(Drop)]
pub(crate) struct ImportTargets {
    /// Where each leads, in order.
    pub targets: Vec<Target>,
    /// Those that bind a symbol, in order, each with its symbol.
    pub bound: Vec<(u32, Target)>,
}

impl ImportTargets {
    /// Adds where an import leads that binds this symbol, if it binds one.
    fn push(&mut self, symbol: Option<SymbolId>, target: &Target) -> Result<(), AllocError>
        ensures targets { OnOk result
            (self.new.targets.items ≡ self.old.targets.items ++ target.now ∷ []) }
        ensures bound { OnOk result
            (self.new.bound.items ≡ with_bound self.old.bound.items symbol target.now) }
    {
        self.targets.push(*target)?;
        if let Some(symbol) = symbol {
            self.bound.push((symbol.index() as u32, *target))?;
        }
        Ok(())
    }

    /// Adds where an import leads.
    fn add<'a>(
        &mut self,
        names: &ModuleNames<'_>,
        texts: &mut Texts<'a>,
        analysed: &AnalysedModule<'_, '_>,
        import: &ImportEntry<'a>,
    ) -> Result<(), AllocError>
        ensures grows { OnOk result (Grows texts.old texts.new) }
        ensures added { OnOk result
            (AddsImport names.now texts.new (ties_in analysed.now)
            (shown_import import.now) self.old self.new) }
    {
        // The proof has to be told of all types that a target holds.
        let _end: Option<Terminal> = None;
        let target = wanted_target(names, texts, import.source(), &import.wanted())?;
        self.push(analysed.symbol_of_name(&import.local()), &target)?;
        Ok(())
    }
}

/// Where the imports of a module lead, in order.
#[tactic(auto, using(link_targets::proofs::Growth::grows_same))]
pub(crate) fn import_targets<'a>(
    alloc: Global,
    names: &ModuleNames<'_>,
    texts: &mut Texts<'a>,
    analysed: &AnalysedModule<'_, '_>,
    imports: &[ImportEntry<'a>],
) -> Result<ImportTargets, AllocError>
    ensures grows { OnOk result (Grows texts.old texts.new) }
    ensures targets { IfOk result
        (λ made. AreDenoted texts.new made.targets.items
        (map (import_end names.now) (map shown_import imports.now))) }
    ensures bound { IfOk result
        (λ made. ImportsLead names.now texts.new (ties_in analysed.now)
        (map shown_import imports.now) (λ s. lookup (nat_eq s) made.bound.items)) }
{
    let mut made = ImportTargets {
        targets: Vec::new(alloc),
        bound: Vec::new(alloc),
    };
    for import in imports {
        made.add(names, texts, analysed, import)?;
    }
    Ok(made)
}
