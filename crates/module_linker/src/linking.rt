//! From a set of modules to its links.
ghost use Rattle.std.specs.Prelude.{◌≡◌, None, Some, IfOk, IfErr, OnOk};
ghost use Rattle.module_set.specs.Outcome.{IsWantOfMemory};
ghost use Rattle.link_model.specs.Outcome.{AreLinks};
ghost use Rattle.link_model.specs.Refusal.{refusal_of};

use crate::links::links_of;
use module_entries::check::check_modules;
use module_entries::link_list::Links;
use module_set::{LinkError, Modules};
use std::alloc::Global;

/// Ties each import specifier of each module to what it reaches, through any number of exports. A specifier names the
/// module of the set that has its text as name; what has no such module is external. Takes time linear in the trees and
/// in where names lead.
///
/// # Errors
/// In this order, over the whole set, each at its least module and there at its least node: `NotModule`, `Twice`,
/// `TwoExports`, `UnknownStar`. `Memory` may come at any place, also where there are more names than have numbers.
pub fn link(alloc: Global, modules: &Modules) -> Result<Links, LinkError>
    // Each import has its link.
    ensures linked { IfOk result (λ links. AreLinks modules.now links) }
    // Nothing of a set that is linked is refused.
    ensures linkable { OnOk result (refusal_of modules.now ≡ None) }
    // Which refusal it is.
    ensures refused { IfErr result (λ e. ¬ IsWantOfMemory e → refusal_of modules.now ≡ Some e) }
    // Each set of which nothing is refused is linked.
    ensures complete { refusal_of modules.now ≡ None → IfErr result IsWantOfMemory }
{
    check_modules(alloc, modules)?;
    let list = links_of(alloc, modules)?;
    Ok(Links::new(list))
}
