//! Where the exports of a module lead.
ghost use Rattle.std.specs.Prelude.{◌≡◌, [], ◌∷◌, map, IfOk, OnOk};
ghost use Rattle.std.specs.Str.{chars};
ghost use Rattle.semantic_kinds.specs.declared.role.Role.TheVariants as role;
ghost use Rattle.semantic_tree.specs.ChildIter.{shown};
ghost use Rattle.semantic_tree.specs.Views.{child_of};
ghost use Rattle.link_model.specs.Exports.{default_name};
ghost use Rattle.link_model.specs.Imports.{imports};
ghost use Rattle.link_model.specs.Leads.{exported_ends, starred, wanted_end};
ghost use Rattle.link_search.specs.Exports.{if_any};
ghost use Rattle.link_targets.specs.Denoted.{AreDenoted, Grows};
ghost use Rattle.link_targets.specs.Described.{IsExport, AreExports};
ghost use Rattle.module_entries.specs.Views.{shown_way, shown_export, shown_wanted};
ghost use Rattle.module_linker.specs.AnalysedIn.{analysed_in, ties_in};
ghost use Rattle.module_linker.specs.ScopeOf.{imported_in, ScopeLeads};
ghost use Rattle.module_linker.specs.LocalTargets.{local_target, default_target};

use crate::module_scope::ModuleScope;
use link_search::Target;
use module_entries::entry_texts::source_text;
use module_entries::export::{ExportEntry, ExportWay, default_id, listed_local};
use module_entries::import::Wanted;
use module_entries::module_names::ModuleNames;
use module_entries::texts::Texts;
use module_entries::wanted_target::wanted_target;
use semantic_tree::{AstKind, Node};
use std::alloc::{AllocError, Global};

/// Where a name leads that a specifier without a source lists, if anywhere.
fn listed_target(scope: &ModuleScope<'_, '_>, specifier: &Node) -> Option<Target>
    ensures { result ≡ local_target scope.now.analysed.now.number (ties_in scope.now.analysed.now)
        (imported_in scope.now) (child_of role.Local specifier.now) }
{
    scope.local_target(&listed_local(specifier))
}

/// Where the default export of a statement leads.
fn default_target(scope: &ModuleScope<'_, '_>, statement: &Node) -> Option<Target>
    ensures { result ≡ default_target scope.now.analysed.now.number (ties_in scope.now.analysed.now)
        (default_name (child_of role.Declaration statement.now)) }
{
    scope.default_target(&default_id(statement))
}

/// Where a name leads that a module passes on from another.
fn passed_target<'a>(
    names: &ModuleNames<'_>,
    texts: &mut Texts<'a>,
    source: &'a str,
    wanted: &Wanted<'a>,
) -> Result<Option<Target>, AllocError>
    ensures grows { OnOk result (Grows texts.old texts.new) }
    ensures stands { IfOk result
        (λ target. AreDenoted texts.new (if_any target)
        (wanted_end names.now (chars source.now) (shown_wanted wanted.now) ∷ [])) }
{
    Ok(Some(wanted_target(names, texts, source, wanted)?))
}

/// Where a name leads that a module exports in this way, if anywhere.
#[tactic(auto, using(crate::proofs::LocalStands::stands))]
fn export_target<'a>(
    names: &ModuleNames<'_>,
    texts: &mut Texts<'a>,
    scope: &ModuleScope<'_, '_>,
    way: &ExportWay<'a>,
) -> Result<Option<Target>, AllocError>
    requires { ScopeLeads names.now texts.old scope.now }
    ensures grows { OnOk result (Grows texts.old texts.new) }
    ensures stands { IfOk result
        (λ target. AreDenoted texts.new (if_any target)
        (exported_ends names.now scope.now.analysed.now.number (ties_in scope.now.analysed.now)
        (imports (analysed_in scope.now.analysed.now)) (shown_way way.now))) }
{
    match *way {
        ExportWay::Listed(specifier) => Ok(listed_target(scope, specifier)),
        ExportWay::PassedOn(source, name) => {
            passed_target(names, texts, source, &Wanted::One(name))
        }
        ExportWay::Collected(source) => passed_target(names, texts, source, &Wanted::Whole),
        ExportWay::Declared(name) => Ok(scope.declared_target(name.node_id)),
        ExportWay::ByDefault(statement) => Ok(default_target(scope, statement)),
    }
}

/// The number of a name that a module exports, and where it leads.
fn entry_target<'a>(
    names: &ModuleNames<'_>,
    texts: &mut Texts<'a>,
    scope: &ModuleScope<'_, '_>,
    export: &ExportEntry<'a>,
) -> Result<(u32, Option<Target>), AllocError>
    requires { ScopeLeads names.now texts.old scope.now }
    ensures grows { OnOk result (Grows texts.old texts.new) }
    ensures stands { IfOk result
        (λ target. IsExport names.now texts.new scope.now.analysed.now.number
        (ties_in scope.now.analysed.now) (imports (analysed_in scope.now.analysed.now)) target
        (shown_export export.now)) }
{
    let target = export_target(names, texts, scope, &export.way())?;
    let name = texts.number_of(export.name())?;
    Ok((name, target))
}

/// The numbers of the names that a module exports, in order, and where each leads.
#[tactic(auto, using(link_targets::proofs::Growth::grows_same))]
pub(crate) fn export_targets<'a>(
    alloc: Global,
    names: &ModuleNames<'_>,
    texts: &mut Texts<'a>,
    scope: &ModuleScope<'_, '_>,
    exports: &[ExportEntry<'a>],
) -> Result<Vec<(u32, Option<Target>)>, AllocError>
    requires { ScopeLeads names.now texts.old scope.now }
    ensures grows { OnOk result (Grows texts.old texts.new) }
    ensures stand { IfOk result
        (λ targets. AreExports names.now texts.new scope.now.analysed.now.number
        (ties_in scope.now.analysed.now)
        (imports (analysed_in scope.now.analysed.now)) targets.items
        (map shown_export exports.now)) }
{
    let mut targets = Vec::new(alloc);
    for export in exports {
        let (name, target) = entry_target(names, texts, scope, export)?;
        targets.push((name, target))?;
    }
    Ok(targets)
}

/// The modules of the set that star exports name, in order.
pub(crate) fn starred(
    alloc: Global,
    names: &ModuleNames<'_>,
    stars: &[AstKind<'_>],
) -> Result<Vec<u32>, AllocError>
    ensures { IfOk result (λ modules. modules.items ≡ starred names.now (map shown stars.now)) }
{
    let mut modules = Vec::new(alloc);
    for star in stars {
        if let Some(module) = names.number_of(source_text(*star)) {
            modules.push(module)?;
        }
    }
    Ok(modules)
}
