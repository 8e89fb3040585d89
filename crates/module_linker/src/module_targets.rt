//! Where the imports and exports of a module lead, by its analysis.
ghost use Rattle.std.specs.Prelude.{◌≡◌, map, IfOk, OnOk};
ghost use Rattle.link_model.specs.Imports.{imports};
ghost use Rattle.link_model.specs.Leads.{import_end};
ghost use Rattle.link_targets.specs.Denoted.{AreDenoted, Grows};
ghost use Rattle.link_targets.specs.Described.{IsModuleExports};
ghost use Rattle.module_entries.specs.Views.{shown_import};
ghost use Rattle.module_linker.specs.AnalysedIn.{analysed_in, AreEntriesOf, import_nodes};
ghost use Rattle.module_linker.specs.ScopeOf.{ScopeLeads};

use crate::analysed_module::AnalysedModule;
use crate::export_targets::{export_targets, starred};
use crate::import_targets::{ImportTargets, import_targets};
use crate::module_scope::ModuleScope;
use link_search::{ModuleExports, Target, firsts};
use module_entries::entries::{ModuleEntries, entries_of};
use module_entries::import::ImportEntry;
use module_entries::module_names::ModuleNames;
use module_entries::texts::Texts;
use semantic_syntax::NodeId;
use std::alloc::{AllocError, Global};

/// Where the imports and exports of a module lead.
#[derive(Drop)]
pub struct ModuleTargets {
    /// The import specifiers, in preorder.
    pub nodes: Vec<NodeId>,
    /// Where each of them leads.
    pub targets: Vec<Target>,
    pub exports: ModuleExports,
}

/// The import specifiers.
fn nodes_of(alloc: Global, imports: &[ImportEntry<'_>]) -> Result<Vec<NodeId>, AllocError>
    ensures { IfOk result (λ nodes. nodes.items ≡ import_nodes (map shown_import imports.now)) }
{
    let mut nodes = Vec::new(alloc);
    for import in imports {
        nodes.push(import.node())?;
    }
    Ok(nodes)
}

/// What a module exports, and where it leads.
fn exports_of<'a>(
    alloc: Global,
    names: &ModuleNames<'_>,
    texts: &mut Texts<'a>,
    scope: &ModuleScope<'_, 'a>,
) -> Result<ModuleExports, AllocError>
    requires leads { ScopeLeads names.now texts.old scope.now }
    requires entries { AreEntriesOf (analysed_in scope.now.analysed.now) scope.now.entries.now }
    ensures grows { OnOk result (Grows texts.old texts.new) }
    ensures exports { IfOk result
        (λ made. IsModuleExports names.now texts.new scope.now.analysed.now.number
        (analysed_in scope.now.analysed.now) made) }
{
    let exports = scope.entries.exports.as_slice();
    let targets = export_targets(alloc, names, texts, scope, exports)?;
    let exported = firsts(alloc, targets.as_slice())?;
    let stars = starred(alloc, names, scope.entries.stars.as_slice())?;
    Ok(ModuleExports {
        names: exported,
        stars,
    })
}

/// Where these imports and exports of a module lead.
fn entry_targets<'a>(
    alloc: Global,
    names: &ModuleNames<'_>,
    texts: &mut Texts<'a>,
    analysed: &AnalysedModule<'_, 'a>,
    entries: &ModuleEntries<'a>,
) -> Result<ModuleTargets, AllocError>
    requires { AreEntriesOf (analysed_in analysed.now) entries.now }
    ensures grows { OnOk result (Grows texts.old texts.new) }
    ensures nodes { IfOk result
        (λ made. made.nodes.items ≡ import_nodes (imports (analysed_in analysed.now))) }
    ensures targets { IfOk result
        (λ made. AreDenoted texts.new made.targets.items
        (map (import_end names.now) (imports (analysed_in analysed.now)))) }
    ensures exports { IfOk result
        (λ made. IsModuleExports names.now texts.new analysed.now.number
        (analysed_in analysed.now) made.exports) }
{
    let imports = entries.imports.as_slice();
    let nodes = nodes_of(alloc, imports)?;
    let ImportTargets { targets, bound } = import_targets(alloc, names, texts, analysed, imports)?;
    let imported = firsts(alloc, bound.as_slice())?;
    let scope = ModuleScope {
        analysed,
        entries,
        imported: &imported,
    };
    let exports = exports_of(alloc, names, texts, &scope)?;
    Ok(ModuleTargets {
        nodes,
        targets,
        exports,
    })
}

/// Where the imports and exports of a module lead. Texts that have no numbers get them. Takes time linear in the nodes
/// of the module. The only error is want of memory; some texts may have numbers then.
pub fn targets_of<'a>(
    alloc: Global,
    names: &ModuleNames<'_>,
    texts: &mut Texts<'a>,
    analysed: &AnalysedModule<'_, 'a>,
) -> Result<ModuleTargets, AllocError>
    ensures grows { OnOk result (Grows texts.old texts.new) }
    ensures nodes { IfOk result
        (λ made. made.nodes.items ≡ import_nodes (imports (analysed_in analysed.now))) }
    ensures targets { IfOk result
        (λ made. AreDenoted texts.new made.targets.items
        (map (import_end names.now) (imports (analysed_in analysed.now)))) }
    ensures exports { IfOk result
        (λ made. IsModuleExports names.now texts.new analysed.now.number
        (analysed_in analysed.now) made.exports) }
{
    let entries = entries_of(alloc, &analysed.module.program)?;
    entry_targets(alloc, names, texts, analysed, &entries)
}
