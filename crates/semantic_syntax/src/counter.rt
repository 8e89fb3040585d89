//! The counter of look-ups.
ghost use Rattle.std.specs.Prelude.{◌≡◌};
ghost use Rattle.semantic_syntax.specs.Counts.{raised};

use std::marker::Model;

/// Counts the probes of look-ups, in each of which one scope is asked for a name. It holds a ledger, so that code that
/// is generic in `L` can't make another counter of the caller's. Contracts see how many probes were made.
#[derive(Drop)]
pub struct Steps<L> {
    ledger: L,
    taken: u64,
}

impl<L> Model for Steps<L> {
    ghost use Rattle.std.specs.Prelude.{ℕ};

    ghost Value = { ℕ };

    ghost view = { λ s. s.taken };
}

impl<L> Steps<L> {
    /// A counter that stands at 0.
    pub fn new(ledger: L) -> Steps<L>
        ensures { result ≡ 0 }
    {
        Steps { ledger, taken: 0 }
    }

    /// One probe more. The counter stands still at `u64::MAX`.
    pub fn tick(&mut self)
        ensures { self.new ≡ raised self.old 1 }
    {
        self.taken = self.taken.saturating_add(1);
    }

    /// How many probes were made.
    pub fn count(&self) -> u64
        ensures { result ≡ self.now }
    {
        self.taken
    }
}
