//! Writes what the renamer answers. Each line of the file `cases` has the name of a program in the folder `programs` and
//! the words, with bars between them. Then it writes what comes of one such run where each read and each write fails in
//! turn, and where the line on a refusal can't be told.

use crate::ends::{failing, parts_of, words_of};
use renamer::{RenameStatus, run_rename};
use report_ends::{MemorySink, MemorySource, Reading, SureSink, SureSource, Writing};
use std::fs::{self, File};
use std::io::{self, Write};

// Writes what is answered to the words about a program.
fn write_case(rt: &HostRuntime, line: &str) -> io::Result<()> {
    let alloc = rt.alloc();
    println!(rt; "case {line}")?;
    let parts = parts_of(alloc, line)?;
    let Some((name, words)) = parts.split_first() else {
        return Ok(());
    };
    let path = format!(in alloc; "renamings/programs/{name}.json")?;
    let words = words_of(alloc, words)?;
    let mut source = Reading::new(File::open(rt, path.as_str())?);
    let mut out = Writing::new(rt.stdout());
    let mut errs = Writing::new(rt.stdout());
    let status = run_rename(alloc, &words, &mut source, &mut out, &mut errs);
    if status == RenameStatus::Done {
        println!(rt; "")?;
    }
    println!(rt; "status {}", status.code())
}

// Writes how a run ended, how many bytes of its answer were written, and what was told.
fn write_end(rt: &HostRuntime, status: RenameStatus, held: usize, told: &[u8]) -> io::Result<()> {
    println!(rt; "status {}, {held} bytes written", status.code())?;
    rt.stdout().write_all(told)
}

// A run over a source that gives 256 bytes a call, one of which fails.
fn read_fails(rt: &HostRuntime, tree: &[u8], call: u64) -> io::Result<RenameStatus> {
    let alloc = rt.alloc();
    let words = words_of(alloc, &["2", "c"])?;
    let input = Vec::from_slice(alloc, tree)?;
    let mut source = MemorySource::new(input, failing(alloc, call)?).with_piece(256);
    let mut out = SureSink::new(alloc);
    let mut errs = SureSink::new(alloc);
    let status = run_rename(alloc, &words, &mut source, &mut out, &mut errs);
    println!(rt; "read {call} fails")?;
    write_end(rt, status, out.held().len(), errs.held())?;
    Ok(status)
}

// A run over a sink that takes 256 bytes a call, one of which fails.
fn write_fails(rt: &HostRuntime, tree: &[u8], call: u64) -> io::Result<RenameStatus> {
    let alloc = rt.alloc();
    let words = words_of(alloc, &["2", "c"])?;
    let mut source = SureSource::new(Vec::from_slice(alloc, tree)?);
    let mut out = MemorySink::new(alloc, 256, failing(alloc, call)?);
    let mut errs = SureSink::new(alloc);
    let status = run_rename(alloc, &words, &mut source, &mut out, &mut errs);
    println!(rt; "write {call} fails")?;
    write_end(rt, status, out.held().len(), errs.held())?;
    Ok(status)
}

// A run that is refused, over a sink for the line that takes 16 bytes a call, one of which fails.
fn telling_fails(rt: &HostRuntime, tree: &[u8], call: u64) -> io::Result<()> {
    let alloc = rt.alloc();
    let words = words_of(alloc, &["3", "c"])?;
    let mut source = SureSource::new(Vec::from_slice(alloc, tree)?);
    let mut out = SureSink::new(alloc);
    let mut errs = MemorySink::new(alloc, 16, failing(alloc, call)?);
    let status = run_rename(alloc, &words, &mut source, &mut out, &mut errs);
    println!(rt; "call {call} on errs fails")?;
    write_end(rt, status, out.held().len(), errs.held())?;
    println!(rt; "")
}

// Lets each read fail in turn until one is beyond the last.
fn write_failing_reads(rt: &HostRuntime, tree: &[u8]) -> io::Result<()> {
    for call in 1..100 {
        if read_fails(rt, tree, call)? == RenameStatus::Done {
            break;
        }
    }
    Ok(())
}

// Lets each write fail in turn until one is beyond the last.
fn write_failing_writes(rt: &HostRuntime, tree: &[u8]) -> io::Result<()> {
    for call in 1..100 {
        if write_fails(rt, tree, call)? == RenameStatus::Done {
            break;
        }
    }
    Ok(())
}

// Writes what is answered to each line of the cases.
fn write_cases(rt: &HostRuntime) -> io::Result<()> {
    let cases = fs::read_to_string(rt, "renamings/cases")?;
    for line in cases.lines() {
        write_case(rt, line)?;
    }
    Ok(())
}

/// Writes all that the renamer answers.
pub fn write_all(rt: &HostRuntime) -> io::Result<()> {
    write_cases(rt)?;
    let tree = fs::read_to_string(rt, "renamings/programs/a-function-and-a-call.json")?;
    write_failing_reads(rt, tree.as_bytes())?;
    write_failing_writes(rt, tree.as_bytes())?;
    telling_fails(rt, tree.as_bytes(), 1)?;
    telling_fails(rt, tree.as_bytes(), 2)
}
