//! Names that a module exports twice.
ghost use Rattle.std.specs.Prelude.{◌≡◌, ◌≤◌, [], length, map, IfOk};
ghost use Rattle.link_model.specs.Refusal.{repeated, first_repeated};
ghost use Rattle.module_entries.specs.Views.{shown_export};
ghost use Rattle.module_entries.specs.Checks.{Checks};
ghost use Rattle.module_entries.specs.Seen.{exports_seen};
ghost use Rattle.tree_json.specs.Views.{characters, IsSpelled};
ghost use Rattle.tree_json.specs.Written.{Each};

use crate::entries::ModuleEntries;
use crate::export::ExportEntry;
use crate::name_set::add_name;
use indexmap::IndexSet;
use module_set::LinkError;
use semantic_syntax::NodeId;
use std::alloc::{AllocError, Global};

/// The first node that exports a name which is there, or which an earlier one exports. The names of all before it go there.
#[tactic(auto, using(crate::proofs::Turns::export_turn, crate::proofs::Turns::export_found, crate::proofs::Turns::exports_end))]
fn first_known<'a>(
    names: &mut IndexSet<&'a str>,
    exports: &[ExportEntry<'a>],
) -> Result<Option<NodeId>, AllocError>
    requires { Each IsSpelled names.old.keys }
    ensures { IfOk result (λ found. found
        ≡ repeated (map characters names.old.keys) (map shown_export exports.now)) }
{
    for export in exports {
        if !add_name(names, export.name())? {
            return Ok(Some(export.node()));
        }
    }
    Ok(None)
}

/// The first node that exports a name which an earlier one exports.
fn first_repeated(alloc: Global, exports: &[ExportEntry<'_>]) -> Result<Option<NodeId>, AllocError>
    ensures { IfOk result (λ found. found ≡ repeated [] (map shown_export exports.now)) }
{
    let mut names = IndexSet::new(alloc);
    let found = first_known(&mut names, exports);
    drop(names);
    found
}

/// Refuses the first node that exports a name which an earlier one of its module exports.
#[tactic(auto, using(crate::proofs::Turns::exports_turn, crate::proofs::Turns::exports_found, crate::proofs::Turns::all_exports_end))]
pub fn check_exports(alloc: Global, entries: &[ModuleEntries<'_>]) -> Result<(), LinkError>
    requires { length entries.now ≤ 4294967294 }
    ensures { Checks (first_repeated 0 (map exports_seen entries.now)) result }
{
    for (number, module) in entries.iter().enumerate() {
        if let Some(node) = first_repeated(alloc, &module.exports)? {
            return Err(LinkError::TwoExports(number as u32, node));
        }
    }
    Ok(())
}
