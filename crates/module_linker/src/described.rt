//! What a set of modules imports and exports, in numbers.
ghost use Rattle.std.specs.Prelude.{◌≡◌, ◌≤◌, length, IfOk};
ghost use Rattle.module_entries.specs.Names.{names_of};
ghost use Rattle.module_linker.specs.SetTold.{IsDescribed};

use crate::set_targets::{ImportPlace, SetTargets, set_targets};
use link_search::{SetExports, Target};
use module_entries::entry_texts::default_name;
use module_entries::module_names::ModuleNames;
use module_entries::texts::Texts;
use module_set::Module;
use std::alloc::{AllocError, Global};

/// What a set of modules exports, and where its imports lead.
#[derive(Drop)]
pub(crate) struct Described {
    pub exports: SetExports,
    /// The import specifiers, in order of module and node.
    pub places: Vec<ImportPlace>,
    /// Where each of them leads.
    pub targets: Vec<Target>,
}

/// What these modules export, and where their imports lead. These are their names; texts that have no numbers get them.
fn describe_by<'a>(
    alloc: Global,
    names: &ModuleNames<'_>,
    texts: &mut Texts<'a>,
    modules: &'a [Module],
) -> Result<Described, AllocError>
    requires few { length modules.now ≤ 4294967294 }
    requires named { names.now ≡ names_of modules.now }
    ensures { IfOk result (λ made. IsDescribed modules.now made) }
{
    let default_name = texts.number_of(default_name())?;
    let made = set_targets(alloc, names, texts, modules)?;
    texts.are_apart();
    let exports = SetExports {
        modules: made.exports,
        names: texts.len(),
        default_name,
    };
    Ok(Described {
        exports,
        places: made.places,
        targets: made.targets,
    })
}

/// What these modules export, and where their imports lead.
pub(crate) fn describe(alloc: Global, modules: &[Module]) -> Result<Described, AllocError>
    requires { length modules.now ≤ 4294967294 }
    ensures { IfOk result (λ made. IsDescribed modules.now made) }
{
    let names = ModuleNames::of(alloc, modules)?;
    let mut texts = Texts::new(alloc);
    let made = describe_by(alloc, &names, &mut texts, modules);
    drop(texts);
    drop(names);
    made
}
