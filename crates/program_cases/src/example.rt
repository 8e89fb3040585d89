//! Writes what the example of a caller prints for a small program.

use example_caller::print_tree;
use std::{fs, io};

/// Writes what it prints.
pub fn write_all(rt: &HostRuntime) -> io::Result<()> {
    let tree = fs::read(rt, "example/function.json")?;
    print_tree(rt, tree.as_slice())
}
