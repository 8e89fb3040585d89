//! Laws over pairs.

ghost use Rattle.std.specs.Prelude.{◌≤◌, ◌*◌, ℕ, List, length};
ghost use Rattle.link_search.specs.Numbering.{Pair, with_pair, ArePairsWithin, AreDistinctPairs};

/// Distinct pairs of numbers below two bounds are at most as many as the product says. So a search that numbers the pairs that it
/// meets ends.
pub fn distinct_pairs_are_few()
    ensures { (m n : ℕ) (ps : List Pair) → ArePairsWithin m n ps → AreDistinctPairs ps
        → length ps ≤ m * n }
{}

/// Distinct pairs stay distinct where another is met.
pub fn pairs_stay_distinct()
    ensures { (ps : List Pair) (p : Pair) → AreDistinctPairs ps
        → AreDistinctPairs (with_pair ps p) }
{}
