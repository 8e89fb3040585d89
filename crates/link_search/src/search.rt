//! The search from all wanted targets at once.
ghost use Rattle.std.specs.Prelude.{length, IfOk};
ghost use Rattle.link_search.specs.Numbering.{ArePairsWithin};
ghost use Rattle.link_search.specs.Exports.{leads_of, StaysWithin};
ghost use Rattle.link_search.specs.Targets.{AreTargetsWithin, AreFound};
ghost use Rattle.link_search.specs.Answers.{IsSearched};

use crate::answer::{Found, Search};
use crate::ends::{ends_of, numbered};
use crate::exports::{NameWays, SetExports};
use crate::graph::graph_of;
use crate::rings::leading_to_rings;
use crate::target::{Target, names_in};
use crate::terminals::reached_terminals;
use indexmap::IndexSet;
use std::alloc::{AllocError, Global};

// What is found from these names.
fn search_from(
    alloc: Global,
    exports: &SetExports,
    starts: &[(u32, u32)],
) -> Result<Search, AllocError>
    requires exports { StaysWithin exports.now }
    requires starts { ArePairsWithin
        (length exports.now.modules.items) exports.now.names starts.now }
    ensures { IfOk result (IsSearched exports.now starts.now) }
{
    let graph = graph_of(alloc, &NameWays { exports }, starts)?;
    let rows = graph.rows.as_slice();
    if rows.len() > u32::MAX as usize {
        return Err(AllocError);
    }
    let to_rings = leading_to_rings(alloc, rows)?;
    let mut terminals = IndexSet::new(alloc);
    let met = ends_of(alloc, exports, graph.pairs.as_slice())?;
    let ends = numbered(alloc, &mut terminals, met.as_slice())?;
    let reached = reached_terminals(alloc, rows, ends.as_slice())?;
    Ok(Search {
        names: graph.pairs,
        to_rings,
        reached,
        terminals,
    })
}

/// What each target comes to, in order. Each name that is met is asked once where it leads, so it takes time linear in
/// the targets and in where names lead, for all targets together.
pub fn found_all(
    alloc: Global,
    exports: &SetExports,
    wanted: &[Target],
) -> Result<Vec<Found>, AllocError>
    requires exports { StaysWithin exports.now }
    requires wanted { AreTargetsWithin
        (length exports.now.modules.items) exports.now.names wanted.now }
    ensures { IfOk result (λ found. AreFound (leads_of exports.now) wanted.now found.items) }
{
    let starts = names_in(alloc, wanted)?;
    let search = search_from(alloc, exports, starts.as_slice())?;
    let mut found = Vec::new(alloc);
    for target in wanted {
        found.push(search.answer(target))?;
    }
    Ok(found)
}
