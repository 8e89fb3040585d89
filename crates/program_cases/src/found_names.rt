//! Runs the lint of names over the programs of the folder `programs`, which the file `names` lists, each with the names that
//! are known beside it, and over ends that fail. It writes what is found and what each run writes and answers.

mod failing_ends;
mod runs;

use name_lint::{NameReport, find_names};
pub use runs::write_end;
use std::alloc::{AllocError, Global};
use std::{fs, io};
use tree_json::read_program;

/// The names of a text, one a line.
pub fn names_in(alloc: Global, text: &str) -> Result<Vec<String>, AllocError> {
    let mut names = Vec::new(alloc);
    for name in text.lines() {
        names.push(String::from_str(alloc, name)?)?;
    }
    Ok(names)
}

// What is found in a tree, unless it is refused.
fn found_in(alloc: Global, tree: &str, known: &[String]) -> Result<Option<NameReport>, AllocError> {
    match read_program(alloc, tree.as_bytes()) {
        Ok(program) => Ok(Some(find_names(alloc, &program, known)?)),
        Err(_) => Ok(None),
    }
}

// Writes how much is found in a tree.
fn write_found(rt: &HostRuntime, tree: &str, known: &[String]) -> io::Result<()> {
    match found_in(rt.alloc(), tree, known)? {
        Some(found) => println!(rt;
            "{} unused, {} undeclared",
            found.unused.as_slice().len(),
            found.undeclared.as_slice().len()
        ),
        None => println!(rt; "no program"),
    }
}

// Writes what is found in the program of the name, and the run over it.
fn write_program(rt: &HostRuntime, name: &str) -> io::Result<()> {
    let alloc = rt.alloc();
    let path = format!(in alloc; "found_names/programs/{name}.json")?;
    let tree = fs::read_to_string(rt, path.as_str())?;
    let path = format!(in alloc; "found_names/programs/{name}.known")?;
    let text = fs::read_to_string(rt, path.as_str())?;
    let known = names_in(alloc, text.as_str())?;
    print!(rt; "{name}: ")?;
    write_found(rt, tree.as_str(), &known)?;
    runs::write_run(rt, tree.as_str(), &known)
}

// Writes what is found in each program.
fn write_programs(rt: &HostRuntime) -> io::Result<()> {
    let names = fs::read_to_string(rt, "found_names/names")?;
    for name in names.lines() {
        write_program(rt, name)?;
    }
    Ok(())
}

/// Writes all that the lint finds and answers.
pub fn write_all(rt: &HostRuntime) -> io::Result<()> {
    write_programs(rt)?;
    let tree = fs::read_to_string(rt, "found_names/programs/unused-and-undeclared-names.json")?;
    failing_ends::write_runs(rt, tree.as_str())
}
