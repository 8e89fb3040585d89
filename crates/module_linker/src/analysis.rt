//! Where the imports and exports of a module lead.
ghost use Rattle.std.specs.Prelude.{◌≡◌, map, IfOk, OnOk};
ghost use Rattle.link_model.specs.Imports.{imports};
ghost use Rattle.link_model.specs.Leads.{import_end};
ghost use Rattle.link_model.specs.Module.{analysed};
ghost use Rattle.link_targets.specs.Denoted.{AreDenoted, Grows};
ghost use Rattle.link_targets.specs.Described.{IsModuleExports};
ghost use Rattle.module_linker.specs.AnalysedIn.{import_nodes};

use crate::analysed_module::AnalysedModule;
use crate::module_targets::{ModuleTargets, targets_of};
use module_entries::module_names::ModuleNames;
use module_entries::texts::Texts;
use module_set::Module;
use semantic::{SemanticBuilder, drop_analysis};
use std::alloc::{AllocError, Global};

/// Where the imports and exports of a module lead that has this number. Its program is analysed for it, and the
/// analysis is let go of.
pub(crate) fn module_targets<'a>(
    alloc: Global,
    names: &ModuleNames<'_>,
    texts: &mut Texts<'a>,
    number: u32,
    module: &'a Module,
) -> Result<ModuleTargets, AllocError>
    ensures grows { OnOk result (Grows texts.old texts.new) }
    ensures nodes { IfOk result
        (λ made. made.nodes.items ≡ import_nodes (imports (analysed «module».now))) }
    ensures targets { IfOk result
        (λ made. AreDenoted texts.new made.targets.items
        (map (import_end names.now) (imports (analysed «module».now)))) }
    ensures exports { IfOk result
        (λ made. IsModuleExports names.now texts.new number (analysed «module».now) made.exports) }
{
    let analysis = SemanticBuilder::new().build(alloc, &module.program)?;
    let semantic = &analysis.semantic;
    let analysed = AnalysedModule {
        number,
        module,
        scoping: semantic.scoping(),
        tables: semantic.tables(),
    };
    let made = targets_of(alloc, names, texts, &analysed);
    drop_analysis(analysis);
    made
}
