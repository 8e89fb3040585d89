//! The names that imports bind.
ghost use Rattle.std.specs.Prelude.{◌≡◌, ◌++◌, map, IfOk, OnOk};
ghost use Rattle.std.specs.Str.{chars};
ghost use Rattle.tree_json.specs.Views.{characters};
ghost use Rattle.link_model.specs.Module.{text_or_empty, all_analysed};
ghost use Rattle.link_model.specs.Outcome.{all_imports};
ghost use Rattle.module_entries.specs.Views.{shown_import};
ghost use Rattle.module_entries.specs.LinkLines.{local_of, local_name};

use crate::entries::entries_of;
use crate::import::ImportEntry;
use module_set::Module;
use std::alloc::{AllocError, Global};

/// The name that an import binds.
#[tactic(auto, using(crate::proofs::LineTurns::no_text))]
fn local_of<'a>(import: &ImportEntry<'a>) -> &'a str
    ensures { chars result.now ≡ local_of (shown_import import.now) }
{
    match import.local() {
        Some(local) => local.text().as_str(),
        None => "",
    }
}

/// Adds the names that imports bind.
#[tactic(auto, using(crate::proofs::LineTurns::import_turn, crate::proofs::LineTurns::imports_end))]
fn push_locals<'a>(locals: &mut Vec<&'a str>, imports: &[ImportEntry<'a>]) -> Result<(), AllocError>
    ensures { OnOk result (map characters locals.new.items
        ≡ map characters locals.old.items ++ map local_of (map shown_import imports.now)) }
{
    for import in imports {
        locals.push(local_of(import))?;
    }
    Ok(())
}

/// The names that the imports of the modules bind, in order of module and node.
#[tactic(auto, using(crate::proofs::LineTurns::module_turn, crate::proofs::LineTurns::locals_end))]
pub fn locals_of(alloc: Global, list: &[Module]) -> Result<Vec<&str>, AllocError>
    ensures { IfOk result (λ locals. map characters locals.items
        ≡ map local_name (all_imports (all_analysed list.now))) }
{
    let mut locals = Vec::new(alloc);
    for module in list {
        let entries = entries_of(alloc, &module.program)?;
        push_locals(&mut locals, &entries.imports)?;
    }
    Ok(locals)
}
