//! The graph of all pairs that are reached from some.

ghost use Rattle.std.specs.Prelude.{◌≡◌, ◌<◌, length, IfOk};
ghost use Rattle.reachability.specs.Rows.{Among, lists, AreWithin};
ghost use Rattle.link_search.specs.Numbering.{Pair, AreNumbersOf, ArePairsWithin, AreDistinctPairs};
ghost use Rattle.link_search.specs.Graph.{AreRowsOf, IsReached, StartAmong};

use crate::numbering::numbers_of;
use indexmap::IndexSet;
use std::alloc::{AllocError, Global};

/// Where pairs lead. Firsts and seconds have bounds, so what is reached is finite.
pub trait Ways {
    ghost use Rattle.std.specs.Prelude.{ℕ, List};
    ghost use Rattle.link_search.specs.Numbering.{Pair, ArePairsWithin};

    /// The pairs to which a pair leads, in order.
    ghost leads: { Self → Pair → List Pair };

    /// All firsts are below.
    ghost firsts: { Self → ℕ };

    /// All seconds are below.
    ghost seconds: { Self → ℕ };

    /// The pairs to which a pair leads.
    fn ways(&self, alloc: Global, pair: (u32, u32)) -> Result<Vec<(u32, u32)>, AllocError>
        ensures ways { IfOk result (λ ways. ways.items ≡ leads self.now pair) }
        ensures within { IfOk result
            (λ ways. ArePairsWithin (firsts self.now) (seconds self.now) ways.items) };
}

/// The pairs that are reached, whose places are their numbers, and for each a row of the numbers to which it leads.
#[derive(Drop)]
pub struct PairGraph {
    pub pairs: IndexSet<(u32, u32)>,
    pub rows: Vec<Vec<u32>>,
}

/// The graph of the pairs that are reached from some. Each pair is asked once where it leads, so it takes time linear in
/// the starts and in what the asked pairs answer.
pub fn graph_of<W: Ways>(
    alloc: Global,
    ways: &W,
    starts: &[(u32, u32)],
) -> Result<PairGraph, AllocError>
    requires { ArePairsWithin (W.firsts ways.now) (W.seconds ways.now) starts.now }
    ensures starts { IfOk result (λ made. StartAmong made.pairs.keys starts.now) }
    ensures only { IfOk result (λ made. (p : Pair) → Among p made.pairs.keys
        → IsReached (W.leads ways.now) starts.now p) }
    ensures distinct { IfOk result (λ made. AreDistinctPairs made.pairs.keys) }
    ensures rows { IfOk result (λ made.
        AreRowsOf (W.leads ways.now) made.pairs.keys (lists made.rows.items)) }
    ensures within { IfOk result
        (λ made. AreWithin (length made.rows.items) (lists made.rows.items)) }
{
    let mut pairs = IndexSet::new(alloc);
    let _numbers = numbers_of(alloc, &mut pairs, starts)?;
    let mut rows = Vec::new(alloc);
    while let Some(found) = pairs.get_index(rows.len()) {
        let pair = *found;
        let met = ways.ways(alloc, pair)?;
        let row = numbers_of(alloc, &mut pairs, met.as_slice())?;
        rows.push(row)?;
    }
    Ok(PairGraph { pairs, rows })
}
