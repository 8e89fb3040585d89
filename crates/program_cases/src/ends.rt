//! What runs are given: words, and calls on an end that fail.

use std::alloc::{AllocError, Global};

/// The words, owned.
pub fn words_of(alloc: Global, words: &[&str]) -> Result<Vec<String>, AllocError> {
    let mut owned = Vec::new(alloc);
    for word in words {
        owned.push(String::from_str(alloc, word)?)?;
    }
    Ok(owned)
}

/// The numbers of the calls that fail: this one, if it isn't 0.
pub fn failing(alloc: Global, call: u64) -> Result<Vec<u64>, AllocError> {
    let mut calls = Vec::new(alloc);
    if call != 0 {
        calls.push(call)?;
    }
    Ok(calls)
}

/// The parts of a line between bars.
pub fn parts_of(alloc: Global, line: &str) -> Result<Vec<&str>, AllocError> {
    let mut parts = Vec::new(alloc);
    for part in line.split('|') {
        parts.push(part)?;
    }
    Ok(parts)
}
