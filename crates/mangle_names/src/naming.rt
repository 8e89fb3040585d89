//! Short names, one after the other.
use std::alloc::{AllocError, Global};

/// Characters that begin a name, and after them those that go on only.
const CHARACTERS: &str = "etnrisouaflchpdvmgybwESxTNCkLAOM_DPHBjFIqRUzWXV$JKQGYZ0516372984";

const FIRST: usize = 54;

const ALL: usize = 64;

/// Adds the character of the number.
fn add(name: &mut String, number: usize) -> Result<(), AllocError> {
    match CHARACTERS.get(number..number.saturating_add(1)) {
        Some(text) => name.push_str(text),
        None => Ok(()),
    }
}

/// The name of this number, shortest names first.
pub fn name_of(alloc: Global, number: usize) -> Result<String, AllocError> {
    let mut name = String::new(alloc);
    add(&mut name, number % FIRST)?;
    let mut rest = number / FIRST;
    for _ in 0..16 {
        if rest > 0 {
            rest = rest - 1;
            add(&mut name, rest % ALL)?;
            rest = rest / ALL;
        }
    }
    Ok(name)
}
