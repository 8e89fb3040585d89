//! Laws over rows and what is reached.

ghost use Rattle.std.specs.Prelude.{◌≡◌, ◌<◌, ◌≤◌, ℕ, List, true, length, All};
ghost use Rattle.reachability.specs.Rows.{Among, row, rows_from_pairs, Reached, AreWithin, AreDistinct};
ghost use Rattle.reachability.specs.Marked.{is_marked, reached_marks};

/// The rows of pairs have their seconds, each in the row of its first, and nothing else.
pub fn rows_have_the_seconds()
    ensures there { (n : ℕ) (pairs : List (ℕ × ℕ)) (a b : ℕ) → All (λ p. p.0 < n) pairs
        → Among (a, b) pairs → Among b (row (rows_from_pairs n pairs) a) }
    ensures only { (n : ℕ) (pairs : List (ℕ × ℕ)) (a b : ℕ) → All (λ p. p.0 < n) pairs
        → Among b (row (rows_from_pairs n pairs) a) → Among (a, b) pairs }
{}

/// The rows of pairs are as many as wanted, and their numbers are below each bound that the seconds are below.
pub fn rows_keep_bounds()
    ensures count { (n : ℕ) (pairs : List (ℕ × ℕ)) → length (rows_from_pairs n pairs) ≡ n }
    ensures within { (n m : ℕ) (pairs : List (ℕ × ℕ)) → All (λ p. p.0 < n) pairs
        → All (λ p. p.1 < m) pairs → AreWithin m (rows_from_pairs n pairs) }
{}

/// The marks that the definition computes are those of what is reached.
pub fn marks_are_computed()
    ensures sound { (rows : List (List ℕ)) (seeds : List ℕ) → AreWithin (length rows) rows
        → All (λ a. a < length rows) seeds → (a : ℕ) → is_marked (reached_marks rows seeds) a ≡ true
        → Reached rows seeds a }
    ensures complete { (rows : List (List ℕ)) (seeds : List ℕ) → AreWithin (length rows) rows
        → All (λ a. a < length rows) seeds → (a : ℕ) → Reached rows seeds a
        → is_marked (reached_marks rows seeds) a ≡ true }
{}

/// Distinct numbers below a bound are at most as many as the bound says. So a search that numbers what it meets ends.
pub fn distinct_numbers_are_few()
    ensures { (n : ℕ) (xs : List ℕ) → All (λ x. x < n) xs → AreDistinct xs → length xs ≤ n }
{}
