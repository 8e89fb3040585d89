//! Whether the modules of a set can be linked.
ghost use Rattle.std.specs.Prelude.{◌≡◌, ◌≤◌, [], None, Some, length, map, IfOk, IfErr, OnOk};
ghost use Rattle.tree_json.specs.Views.{characters, IsSpelled};
ghost use Rattle.tree_json.specs.Written.{Each};
ghost use Rattle.module_set.specs.Outcome.{IsWantOfMemory};
ghost use Rattle.link_model.specs.Module.{all_analysed, module_names};
ghost use Rattle.link_model.specs.Exports.{exports, stars};
ghost use Rattle.link_model.specs.Refusal.{is_linkable, first_not_module, first_twice, first_repeated, first_unknown, or_later, refusal_of};
ghost use Rattle.module_entries.specs.Checks.{Checks};
ghost use Rattle.module_entries.specs.Seen.{exports_seen, stars_seen};

use crate::distinct_names::check_names;
use crate::entries::{ModuleEntries, entries_of};
use crate::exported_names::check_exports;
use crate::star_sources::check_stars;
use indexmap::IndexSet;
use module_set::{LinkError, Module, Modules};
use semantic_syntax::{NodeId, SourceType};
use semantic_tree::{SpanFault, TreeError};
use std::alloc::{AllocError, Global};

/// Whether the source is a module in JavaScript, plain or with JSX.
fn is_linkable(source_type: SourceType) -> bool
    ensures { result ≡ is_linkable source_type }
{
    source_type.is_module() && !source_type.is_typescript()
}

/// Refuses the first that is no module in JavaScript.
#[tactic(auto, using(crate::proofs::Turns::linkable_turn, crate::proofs::Turns::unlinkable_found, crate::proofs::Turns::linkable_end))]
fn check_source_types(list: &[Module]) -> Result<(), LinkError>
    requires { length list.now ≤ 4294967294 }
    ensures { Checks (first_not_module 0 (all_analysed list.now)) result }
{
    for (number, module) in list.iter().enumerate() {
        if !is_linkable(module.program.source_type()) {
            return Err(LinkError::NotModule(number as u32));
        }
    }
    Ok(())
}

/// What the modules import and export, in order.
#[tactic(auto, using(crate::proofs::Turns::gathered_exports, crate::proofs::Turns::gathered_stars, crate::proofs::Turns::all_exports_gathered, crate::proofs::Turns::all_stars_gathered))]
fn all_entries(alloc: Global, list: &[Module]) -> Result<Vec<ModuleEntries<'_>>, AllocError>
    ensures exports { IfOk result (λ entries. map exports_seen entries.items
        ≡ map exports (all_analysed list.now)) }
    ensures stars { IfOk result (λ entries. map stars_seen entries.items
        ≡ map stars (all_analysed list.now)) }
    ensures many { IfOk result (λ entries. length entries.items ≡ length list.now) }
{
    let mut all = Vec::new(alloc);
    for module in list {
        all.push(entries_of(alloc, &module.program)?)?;
    }
    Ok(all)
}

/// Refuses the first export of a name twice, and then the first unknown star, of what modules import and export.
fn check_entries(
    alloc: Global,
    names: &IndexSet<&str>,
    entries: &[ModuleEntries<'_>],
) -> Result<(), LinkError>
    requires few { length entries.now ≤ 4294967294 }
    requires spelled { Each IsSpelled names.now.keys }
    ensures { Checks (or_later (first_repeated 0 (map exports_seen entries.now))
        (first_unknown (map characters names.now.keys) 0 (map stars_seen entries.now))) result }
{
    // The proof has to be told of all types that the names hold.
    let _none: Option<(TreeError, SpanFault, NodeId)> = None;
    check_exports(alloc, entries)?;
    check_stars(names, entries)
}

/// The same of modules, whose names are these.
fn check_links(alloc: Global, names: &IndexSet<&str>, list: &[Module]) -> Result<(), LinkError>
    requires few { length list.now ≤ 4294967294 }
    requires spelled { Each IsSpelled names.now.keys }
    ensures { Checks (or_later (first_repeated 0 (map exports (all_analysed list.now)))
        (first_unknown (map characters names.now.keys) 0 (map stars (all_analysed list.now))))
        result }
{
    let entries = all_entries(alloc, list)?;
    let checked = check_entries(alloc, names, &entries);
    drop(entries);
    checked
}

/// Refuses the first module of a name that an earlier one has, and then as above.
fn check_named(alloc: Global, list: &[Module]) -> Result<(), LinkError>
    requires { length list.now ≤ 4294967294 }
    ensures { Checks (or_later (first_twice [] 0 (module_names (all_analysed list.now)))
        (or_later (first_repeated 0 (map exports (all_analysed list.now)))
        (first_unknown (module_names (all_analysed list.now)) 0
        (map stars (all_analysed list.now))))) result }
{
    let names = check_names(alloc, list)?;
    check_links(alloc, &names, list)
}

/// Tells why the modules of a set are not linked, if there is a cause. It goes over each program once, and takes time
/// linear in the set.
///
/// # Errors
/// In this order, over the whole set, each at its least module and there at its least node: `NotModule`, `Twice`,
/// `TwoExports`, `UnknownStar`. `Memory` may come at any place.
pub fn check_modules(alloc: Global, modules: &Modules) -> Result<(), LinkError>
    ensures linked { OnOk result (refusal_of modules.now ≡ None) }
    ensures refused { IfErr result (λ e. ¬ IsWantOfMemory e → refusal_of modules.now ≡ Some e) }
    ensures complete { refusal_of modules.now ≡ None → IfErr result IsWantOfMemory }
{
    // The proof has to be told of all types that a module holds.
    let _none: Option<(TreeError, SpanFault, NodeId)> = None;
    let list = modules.as_slice();
    check_source_types(list)?;
    check_named(alloc, list)
}
