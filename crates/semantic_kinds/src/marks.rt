//! Sets of marks.

ghost use Rattle.std.specs.Prelude.{◌≡◌, ◌||◌};
ghost use Rattle.semantic_kinds.specs.Marks.{same_mark};
ghost use Rattle.semantic_kinds.specs.MarkSets.{no_marks, has_mark, with_mark, set_of, is_within, is_single};

use crate::mark::Mark;

/// A set of marks, as bits in the order of the marks.
#[derive(Clone, Copy, PartialEq, Eq, Debug)]
pub struct Marks {
    bits: u32,
}

impl Marks {
    /// No marks.
    pub fn empty() -> Marks
        ensures { result ≡ no_marks }
    {
        Marks { bits: 0 }
    }

    /// Whether the mark is in the set.
    pub fn has(self, mark: Mark) -> bool
        ensures { result ≡ has_mark self mark }
    {
        self.bits & mark.bit() != 0
    }

    /// The set and the mark too.
    #[tactic(auto, using(crate::proofs::MarkLaws::with_has))]
    pub fn with(self, mark: Mark) -> Marks
        ensures set { result ≡ with_mark self mark }
        ensures marks { (m : Mark) → has_mark result m ≡ (has_mark self m || same_mark mark m) }
    {
        Marks {
            bits: self.bits | mark.bit(),
        }
    }

    /// The set of some marks.
    pub fn of(marks: &[Mark]) -> Marks
        ensures { result ≡ set_of marks.now }
    {
        let mut made = Marks::empty();
        for mark in marks {
            made = made.with(*mark);
        }
        made
    }

    /// Whether each mark of this set is in the other.
    pub fn is_within(self, others: Marks) -> bool
        ensures { result ≡ is_within self others }
    {
        self.bits | others.bits == others.bits
    }

    /// Whether there is exactly one mark.
    pub fn is_single(self) -> bool
        ensures { result ≡ is_single self }
    {
        for mark in Mark::all() {
            if self.bits == mark.bit() {
                return true;
            }
        }
        false
    }
}
