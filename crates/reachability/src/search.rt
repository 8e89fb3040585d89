//! The search for what is reached from some numbers.

ghost use Rattle.std.specs.Prelude.{◌≡◌, ◌<◌, ℕ, true, length, All, IfOk};
ghost use Rattle.reachability.specs.Rows.{row, lists, Reached, AreWithin};
ghost use Rattle.reachability.specs.Marked.{is_marked};

use crate::marking::Marking;
use crate::rows::row;
use std::alloc::{AllocError, Global};

/// Which numbers are reached from the seeds, in any number of steps from a number to one in its row. Each row is read
/// once at most, so it takes time linear in the rows and seeds.
pub fn reached(alloc: Global, rows: &[Vec<u32>], seeds: &[u32]) -> Result<Vec<bool>, AllocError>
    requires rows { AreWithin (length rows.now) (lists rows.now) }
    requires seeds { All (λ a. a < length rows.now) seeds.now }
    ensures length { IfOk result (λ marks. length marks.items ≡ length rows.now) }
    ensures sound { IfOk result
        (λ marks. (a : ℕ) → is_marked marks.items a ≡ true → Reached (lists rows.now) seeds.now a) }
    ensures complete { IfOk result
        (λ marks. (a : ℕ) → Reached (lists rows.now) seeds.now a → is_marked marks.items a ≡ true) }
{
    let mut marking = Marking::new(alloc, rows.len())?;
    marking.mark_all(seeds)?;
    let mut next = 0;
    while next < marking.len() {
        let a = marking.at(next);
        marking.mark_all(row(rows, a))?;
        next += 1;
    }
    Ok(marking.into_marks())
}
