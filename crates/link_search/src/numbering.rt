//! Numbers that pairs get as they are met.

ghost use Rattle.std.specs.Prelude.{◌≡◌, ◌<◌, Some, slice_get, length, IfOk, OnOk};
ghost use Rattle.link_search.specs.Numbering.{with_pair, with_pairs, AreNumbersOf};

use indexmap::IndexSet;
use std::alloc::{AllocError, Global};

// The number of a pair, which gets one if it has none.
pub fn number_of(pairs: &mut IndexSet<(u32, u32)>, pair: (u32, u32)) -> Result<u32, AllocError>
    ensures pairs { OnOk result (pairs.new.keys ≡ with_pair pairs.old.keys pair) }
    ensures number { IfOk result (λ number. slice_get pairs.new.keys number ≡ Some pair) }
{
    let (place, _) = pairs.insert_full(pair)?;
    match u32::try_from(place) {
        Ok(number) => Ok(number),
        Err(_) => Err(AllocError),
    }
}

// The numbers of pairs. Those that have none get one.
pub fn numbers_of(
    alloc: Global,
    pairs: &mut IndexSet<(u32, u32)>,
    met: &[(u32, u32)],
) -> Result<Vec<u32>, AllocError>
    ensures pairs { OnOk result (pairs.new.keys ≡ with_pairs pairs.old.keys met.now) }
    ensures numbers { IfOk result (λ numbers. AreNumbersOf pairs.new.keys numbers.items met.now) }
{
    let mut numbers = Vec::new(alloc);
    for pair in met {
        numbers.push(number_of(pairs, *pair)?)?;
    }
    Ok(numbers)
}
