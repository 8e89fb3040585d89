//! Lists of numbers and marks, where a place past the end is none.
ghost use Rattle.std.specs.Prelude.{◌≡◌};
ghost use Rattle.mangle_names.specs.Marks.{is_number_marked};

use std::alloc::{AllocError, Global};

/// No number.
pub const NONE: usize = 4294967295;

/// So many equal numbers.
pub fn filled(alloc: Global, count: usize, value: usize) -> Result<Vec<usize>, AllocError> {
    let mut all = Vec::new(alloc);
    for _ in 0..count {
        all.push(value)?;
    }
    Ok(all)
}

/// The number at a place.
pub fn at(all: &[usize], index: usize) -> usize {
    match all.get(index) {
        Some(value) => *value,
        None => NONE,
    }
}

/// Puts a number at a place.
pub fn put(all: &mut Vec<usize>, index: usize, value: usize) {
    match all.get_mut(index) {
        Some(entry) => *entry = value,
        None => {}
    }
}

/// Whether the place is marked.
pub fn is_marked(marks: &[bool], index: usize) -> bool
    ensures { result ≡ is_number_marked marks.now index }
{
    index < marks.len() && marks[index]
}

/// Marks the place.
pub fn set(marks: &mut Vec<bool>, index: usize) {
    match marks.get_mut(index) {
        Some(mark) => *mark = true,
        None => {}
    }
}

/// So many empty lists.
pub fn lists(alloc: Global, count: usize) -> Result<Vec<Vec<usize>>, AllocError> {
    let mut all = Vec::new(alloc);
    for _ in 0..count {
        all.push(Vec::new(alloc))?;
    }
    Ok(all)
}

/// Adds a number to the list at a place.
pub fn push_at(all: &mut Vec<Vec<usize>>, index: usize, value: usize) -> Result<(), AllocError> {
    match all.get_mut(index) {
        Some(list) => {
            list.push(value)?;
            Ok(())
        }
        None => Ok(()),
    }
}
