//! Where something leads that is wanted of a module.
ghost use Rattle.std.specs.Prelude.{◌≡◌, Some, IfOk, OnOk};
ghost use Rattle.std.specs.Str.{chars};
ghost use Rattle.link_model.specs.Leads.{outside, name_wanted, wanted_from, wanted_end};
ghost use Rattle.link_targets.specs.Denoted.{denoted, Grows};
ghost use Rattle.module_entries.specs.Views.{shown_wanted};

use crate::import::Wanted;
use crate::module_names::ModuleNames;
use crate::texts::Texts;
use link_search::{Target, Terminal};
use std::alloc::AllocError;

/// Where something leads that is wanted of a module of the set.
fn target_within<'a>(
    texts: &mut Texts<'a>,
    module: u32,
    wanted: &Wanted<'a>,
) -> Result<Target, AllocError>
    ensures grows { OnOk result (Grows texts.old texts.new) }
    ensures stands { IfOk result (λ target. denoted texts.new target
        ≡ Some (wanted_from (shown_wanted wanted.now) «module»)) }
{
    match wanted {
        Wanted::One(name) => Ok(Target::Name(module, texts.number_of(name)?)),
        Wanted::Whole => Ok(Target::End(Terminal::Namespace(module))),
    }
}

/// Where something leads that is wanted of a module outside of the set, told by its specifier.
fn target_outside<'a>(
    texts: &mut Texts<'a>,
    source: &'a str,
    wanted: &Wanted<'a>,
) -> Result<Target, AllocError>
    ensures grows { OnOk result (Grows texts.old texts.new) }
    ensures stands { IfOk result (λ target. denoted texts.new target
        ≡ Some (outside (chars source.now) (name_wanted (shown_wanted wanted.now)))) }
{
    let source = texts.number_of(source)?;
    match wanted {
        Wanted::One(name) => {
            let name = texts.number_of(name)?;
            Ok(Target::End(Terminal::Outside(source, Some(name))))
        }
        Wanted::Whole => Ok(Target::End(Terminal::Outside(source, None))),
    }
}

/// Where something leads that is wanted of the module of a specifier.
pub fn wanted_target<'a>(
    names: &ModuleNames<'_>,
    texts: &mut Texts<'a>,
    source: &'a str,
    wanted: &Wanted<'a>,
) -> Result<Target, AllocError>
    ensures grows { OnOk result (Grows texts.old texts.new) }
    ensures stands { IfOk result (λ target. denoted texts.new target
        ≡ Some (wanted_end names.now (chars source.now) (shown_wanted wanted.now))) }
{
    match names.number_of(source) {
        Some(module) => target_within(texts, module, wanted),
        None => target_outside(texts, source, wanted),
    }
}
