//! Writes what is told of the sets of the folder `sets`, which the file `names` lists: the links, or why there are none,
//! and the status. Then the same over ends that fail.

mod failing_ends;

use crate::ends::{failing, words_of};
use failing_ends::{CASES, Case};
use module_linker::{MemorySink, MemorySource, Reading, Writing, run_link};
use std::alloc::{AllocError, Global};
use std::fs::{self, File};
use std::io::{self, Write};

// Writes what is told of the set of the name, with the name before it and the status behind it.
fn write_set(rt: &HostRuntime, name: &str) -> io::Result<()> {
    println!(rt; "set {name}")?;
    let path = format!(in rt.alloc(); "links/sets/{name}.json")?;
    let mut source = Reading::new(File::open(rt, path.as_str())?);
    let mut out = Writing::new(rt.stdout());
    let mut errs = Writing::new(rt.stdout());
    let status = run_link(rt.alloc(), &[], &mut source, &mut out, &mut errs);
    println!(rt; "status {}", status.code())
}

// A sink of which this call fails. It takes at most ten bytes a call.
fn sink(alloc: Global, call: u64) -> Result<MemorySink, AllocError> {
    Ok(MemorySink::new(alloc, 10, failing(alloc, call)?))
}

// Writes what both sinks hold at the end of a case, and the status.
fn write_case(rt: &HostRuntime, case: &Case) -> io::Result<()> {
    println!(rt; "case {}", case.name)?;
    let alloc = rt.alloc();
    let path = format!(in alloc; "links/sets/{}.json", case.set)?;
    let input = fs::read(rt, path.as_str())?;
    let mut source = MemorySource::new(input, failing(alloc, case.read)?);
    let mut out = sink(alloc, case.write)?;
    let mut errs = sink(alloc, case.tell)?;
    let words = words_of(alloc, case.words)?;
    let status = run_link(alloc, &words, &mut source, &mut out, &mut errs);
    let mut stdout = rt.stdout();
    stdout.write_all(out.held())?;
    stdout.write_all(errs.held())?;
    println!(rt; "|\nstatus {}", status.code())
}

// Writes what is told of each set.
fn write_sets(rt: &HostRuntime) -> io::Result<()> {
    let names = fs::read_to_string(rt, "links/names")?;
    for name in names.lines() {
        write_set(rt, name)?;
    }
    Ok(())
}

/// Writes all that the linker tells.
pub fn write_all(rt: &HostRuntime) -> io::Result<()> {
    write_sets(rt)?;
    for case in CASES {
        write_case(rt, case)?;
    }
    Ok(())
}
