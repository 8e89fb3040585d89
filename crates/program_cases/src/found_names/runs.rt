//! A run of the program, and what is told of it.
use name_lint::{NamesStatus, run_names};
use report_ends::{SureSink, SureSource};
use std::alloc::AllocError;
use std::{io, str};

// Writes the lines that a sink holds, of which the last may be a part.
fn write_held(rt: &HostRuntime, held: &[u8]) -> io::Result<()> {
    let Ok(text) = str::from_utf8(held) else {
        return println!(rt; "no text");
    };
    for line in text.lines() {
        println!(rt; "{line}")?;
    }
    Ok(())
}

/// Writes what a run wrote on its two sinks, and its status.
pub fn write_end(rt: &HostRuntime, status: NamesStatus, out: &[u8], errs: &[u8]) -> io::Result<()> {
    write_held(rt, out)?;
    write_held(rt, errs)?;
    println!(rt; "status {}", status.code())
}

/// Writes the run over a tree.
pub fn write_run(rt: &HostRuntime, tree: &str, known: &[String]) -> io::Result<()> {
    let alloc = rt.alloc();
    let bytes = Vec::from_slice(alloc, tree.as_bytes()).map_err(AllocError::from)?;
    let mut source = SureSource::new(bytes);
    let mut out = SureSink::new(alloc);
    let mut errs = SureSink::new(alloc);
    let status = run_names(alloc, known, &mut source, &mut out, &mut errs);
    write_end(rt, status, out.held(), errs.held())
}
