//! Unused short names, one after the other.
ghost use Rattle.std.specs.Prelude.{IfOk};
ghost use Rattle.simple_names.specs.TakenNames.{unused_by};
ghost use Rattle.simple_names.specs.NextNames.{IsNextName};

use crate::sets::Taken;
use crate::short_names::short_name;
use std::alloc::{AllocError, Global};

/// A short name with its number.
#[derive(Drop)]
pub struct Short {
    pub number: usize,
    pub name: String,
}

/// The next unused one from a number on. The only error is want of memory, for names whose numbers are too great as well.
pub fn next_unused(alloc: Global, taken: &Taken, from: usize) -> Result<Short, AllocError>
    ensures { IfOk result (IsNextName (unused_by taken.now) from) }
{
    for number in from..usize::MAX {
        let name = short_name(alloc, number)?;
        if taken.is_unused(name.as_str()) {
            return Ok(Short { number, name });
        }
    }
    Err(AllocError)
}
