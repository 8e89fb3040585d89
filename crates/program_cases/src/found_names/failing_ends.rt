//! Runs over ends that fail, each at one call, and over an input that is too long.
use super::runs::write_end;
use crate::ends::failing;
use name_lint::{NamesStatus, run_names};
use report_ends::{MemorySink, MemorySource, SureSink, SureSource};
use std::io;

// Writes the run whose read of this number fails, of reads of at most 400 bytes.
fn write_failing_read(rt: &HostRuntime, tree: &str, call: u64) -> io::Result<NamesStatus> {
    let alloc = rt.alloc();
    let bytes = Vec::from_slice(alloc, tree.as_bytes())?;
    let mut source = MemorySource::new(bytes, failing(alloc, call)?).with_piece(400);
    let mut out = SureSink::new(alloc);
    let mut errs = SureSink::new(alloc);
    let status = run_names(alloc, &[], &mut source, &mut out, &mut errs);
    write_end(rt, status, out.held(), errs.held())?;
    Ok(status)
}

// Writes the run whose write of this number fails, of writes of at most 7 bytes.
fn write_failing_write(rt: &HostRuntime, tree: &str, call: u64) -> io::Result<NamesStatus> {
    let alloc = rt.alloc();
    let mut source = SureSource::new(Vec::from_slice(alloc, tree.as_bytes())?);
    let mut out = MemorySink::new(alloc, 7, failing(alloc, call)?);
    let mut errs = SureSink::new(alloc);
    let status = run_names(alloc, &[], &mut source, &mut out, &mut errs);
    write_end(rt, status, out.held(), errs.held())?;
    Ok(status)
}

// Writes the runs with each read failing in turn, and the one with none.
fn write_failing_reads(rt: &HostRuntime, tree: &str) -> io::Result<()> {
    for call in 1..100 {
        println!(rt; "read {call} fails")?;
        if write_failing_read(rt, tree, call)? != NamesStatus::Read {
            break;
        }
    }
    Ok(())
}

// Writes the runs with each write failing in turn, and the one with none.
fn write_failing_writes(rt: &HostRuntime, tree: &str) -> io::Result<()> {
    for call in 1..100 {
        println!(rt; "write {call} fails")?;
        if write_failing_write(rt, tree, call)? != NamesStatus::Write {
            break;
        }
    }
    Ok(())
}

// Writes the run over so many spaces, whose first write of an error fails.
fn write_spaces(rt: &HostRuntime, count: usize) -> io::Result<()> {
    let alloc = rt.alloc();
    let mut input = Vec::new(alloc);
    input.resize(count, b' ')?;
    let mut source = SureSource::new(input);
    let mut out = SureSink::new(alloc);
    let mut errs = MemorySink::new(alloc, 7, failing(alloc, 1)?);
    println!(rt; "{count} spaces, and no error can be told")?;
    let status = run_names(alloc, &[], &mut source, &mut out, &mut errs);
    write_end(rt, status, out.held(), errs.held())
}

/// Writes the runs over a tree with each read and each write failing in turn, and the runs over the greatest input and one
/// that is too long.
pub fn write_runs(rt: &HostRuntime, tree: &str) -> io::Result<()> {
    write_failing_reads(rt, tree)?;
    write_failing_writes(rt, tree)?;
    write_spaces(rt, 67_108_864)?;
    write_spaces(rt, 67_108_865)
}
