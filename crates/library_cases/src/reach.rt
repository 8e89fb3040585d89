//! Numbers that lead to one another in a long ring, which is followed without recursion.
ghost use Rattle.std.specs.Prelude.{◌<◌, All};
ghost use Rattle.std.specs.Bool.{OnTrue};

use link_search::{Terminals, leading_to_rings, reached_terminals};
use reachability::{are_within, reached, rows_of};
use std::alloc::{AllocError, Global};
use std::test::Fail;

/// Whether the firsts of pairs are below a bound.
fn are_firsts_below(pairs: &[(u32, u32)], bound: usize) -> bool
    ensures { OnTrue result (All (λ pair. pair.0 < bound) pairs.now) }
{
    pairs.iter().all(|pair| (pair.0 as usize) < bound)
}

/// Each number leads to the next, and the last to the first.
fn ring(alloc: Global, count: u32) -> Result<Vec<(u32, u32)>, AllocError> {
    let mut steps = Vec::new(alloc);
    for number in 1..count {
        steps.push((number - 1, number))?;
    }
    steps.push((count.saturating_sub(1), 0))?;
    Ok(steps)
}

#[test]
fn goes_along_a_long_ring(rt: HostRuntime) -> Result<(), Fail> {
    let steps = ring(rt.alloc(), 100_000)?;
    assert!(rt; are_firsts_below(steps.as_slice(), 100_000));
    let rows = rows_of(rt.alloc(), 100_000, steps.as_slice())?;
    assert!(rt; rows.len() == 100_000 && are_within(rows.as_slice()));
    let from_one = reached(rt.alloc(), rows.as_slice(), &[77])?;
    assert!(rt; from_one.iter().all(|flag| *flag));
    let to_rings = leading_to_rings(rt.alloc(), rows.as_slice())?;
    assert!(rt; to_rings.iter().all(|flag| *flag));
    let ends = [(5, 1), (50_000, 2)];
    let terminals = reached_terminals(rt.alloc(), rows.as_slice(), &ends)?;
    assert!(rt;
        terminals
            .iter()
            .all(|found| matches!(found, Terminals::Several))
    );
    Ok(())
}
