//! The names that change with their new names.
ghost use Rattle.std.specs.Prelude.{◌≡◌, ◌≤◌, ℕ, Some, None, bytes_eq, cond, filter, length, zip, IfOk, OnOk};
ghost use Rattle.std.specs.Map.{lookup};
ghost use Rattle.std.specs.Str.{chars};
ghost use Rattle.semantic_syntax.specs.Tables.{Name};
ghost use Rattle.mangle_model.specs.Assignment.{first_name};
ghost use Rattle.mangle_model.specs.OneNameEach.{is_shorter};
ghost use Rattle.simple_names.specs.TakenNames.{unused_by};
ghost use Rattle.simple_names.specs.NextNames.{unused_from};

use crate::name_map::NameMap;
use crate::next_name::next_unused;
use crate::sets::Taken;
use name_sets::NameSet;
use std::alloc::{AllocError, Global};

/// Whether the new name is shorter.
fn is_shorter(name: &str, new_name: &str) -> bool
    ensures { result ≡ is_shorter (chars name.now, chars new_name.now) }
{
    new_name.len() < name.len()
}

/// Adds the new name, if it is shorter.
fn add_shorter(
    alloc: Global,
    pairs: &mut NameMap,
    name: &str,
    new_name: &str,
) -> Result<(), AllocError>
    ensures { OnOk result ((q : Name)
        → lookup (bytes_eq q) pairs.new ≡ cond (is_shorter (chars name.now, chars new_name.now))
        (first_name (lookup (bytes_eq q) pairs.old)
        (cond (bytes_eq q (chars name.now)) (Some (chars new_name.now)) None))
        (lookup (bytes_eq q) pairs.old)) }
{
    if is_shorter(name, new_name) {
        pairs.add(alloc, name, new_name)?;
    }
    Ok(())
}

/// The names that change with the next unused short names in order, where they are shorter. For any number of short names
/// of which enough are unused, these are the pairs.
pub fn name_pairs(alloc: Global, changing: &NameSet, taken: &Taken) -> Result<NameMap, AllocError>
    ensures { IfOk result (λ pairs. (count : ℕ)
        → length changing.now ≤ length (unused_from (unused_by taken.now) 0 count)
        → (q : Name) → lookup (bytes_eq q) pairs
        ≡ lookup (bytes_eq q) (filter is_shorter
        (zip changing.now (unused_from (unused_by taken.now) 0 count)))) }
{
    let mut pairs = NameMap::new(alloc);
    let mut next = 0;
    for number in 0..changing.len() {
        let short = next_unused(alloc, taken, next)?;
        let name = changing.name_at(number);
        add_shorter(alloc, &mut pairs, name, short.name.as_str())?;
        next = short.number + 1;
    }
    Ok(pairs)
}
