//! The links of a set of modules.
ghost use Rattle.std.specs.Prelude.{IfOk};
ghost use Rattle.link_model.specs.Outcome.{AreLinks};

use crate::described::describe;
use crate::told_links::told_links;
use link_model::Link;
use link_search::found_all;
use module_set::Modules;
use std::alloc::{AllocError, Global};

/// One link for each import specifier of each module, in order of module and node, with what the import comes to. Of
/// modules with one name the first counts, and of exports of one name; a star export of a module outside of the set
/// passes on nothing. Takes time linear in the trees and in where names lead. The only error is want of memory, also
/// where there are more names than have numbers.
pub fn links_of(alloc: Global, modules: &Modules) -> Result<Vec<Link>, AllocError>
    ensures { IfOk result (λ links. AreLinks modules.now links.items) }
{
    let made = describe(alloc, modules.as_slice())?;
    let targets = made.targets.as_slice();
    let places = made.places.as_slice();
    let found = found_all(alloc, &made.exports, targets)?;
    let links = told_links(alloc, places, found.as_slice())?;
    Ok(links)
}
