//! Rows of numbers, made from pairs.

ghost use Rattle.std.specs.Prelude.{◌≡◌, ◌<◌, ◌≤◌, ◌+◌, ◌↔◌, [], length, replicate, All, IfOk, OnOk, IsTrue};
ghost use Rattle.reachability.specs.Rows.{row, lists, with_pair, rows_from_pairs, AreWithin};

use std::alloc::{AllocError, Global};

// So many empty rows.
fn empty_rows(alloc: Global, count: usize) -> Result<Vec<Vec<u32>>, AllocError>
    ensures { IfOk result (λ rows. lists rows.items ≡ replicate count []) }
{
    let mut rows = Vec::new(alloc);
    for _ in 0..count {
        rows.push(Vec::new(alloc))?;
    }
    Ok(rows)
}

// Puts a number last into a row.
fn add(rows: &mut Vec<Vec<u32>>, from: u32, to: u32) -> Result<(), AllocError>
    requires { from < length rows.old.items }
    ensures ok { OnOk result (lists rows.new.items ≡ with_pair (lists rows.old.items) (from, to)) }
{
    Ok(rows[from as usize].push(to)?)
}

/// So many rows. Each has the seconds of the pairs whose first is its number, in order. Takes time linear in the rows
/// and pairs.
pub fn rows_of(
    alloc: Global,
    count: usize,
    pairs: &[(u32, u32)],
) -> Result<Vec<Vec<u32>>, AllocError>
    requires { All (λ pair. pair.0 < count) pairs.now }
    ensures { IfOk result (λ rows. lists rows.items ≡ rows_from_pairs count pairs.now) }
{
    let mut rows = empty_rows(alloc, count)?;
    for (from, to) in pairs {
        add(&mut rows, *from, *to)?;
    }
    Ok(rows)
}

/// The row of a number, in constant time.
pub fn row(rows: &[Vec<u32>], a: u32) -> &[u32]
    requires { a < length rows.now }
    ensures { result.now ≡ row (lists rows.now) a }
{
    rows[a as usize].as_slice()
}

// Whether the numbers of a row are below a bound.
fn is_row_within(row: &[u32], bound: usize) -> bool
    ensures { IsTrue result ↔ All (λ a. a < bound) row.now }
{
    row.iter().all(|a| (*a as usize) < bound)
}

// Whether the numbers of all rows are below a bound.
fn all_within(rows: &[Vec<u32>], bound: usize) -> bool
    ensures { IsTrue result ↔ All (λ row. All (λ a. a < bound) row.items) rows.now }
{
    rows.iter().all(|row| is_row_within(row.as_slice(), bound))
}

/// Whether each number in a row has a row. Takes time linear in the rows.
pub fn are_within(rows: &[Vec<u32>]) -> bool
    ensures { IsTrue result ↔ AreWithin (length rows.now) (lists rows.now) }
{
    all_within(rows, rows.len())
}
