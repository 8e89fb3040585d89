//! A run of the program over ends in memory, and what is wanted of it.
use super::bad_input::{BadCase, Out};
use super::cases::FUNCTION_REPORT;
use report::run;
use report_ends::{MemorySink, MemorySource};
use std::alloc::{AllocError, Global};
use std::process::Abort;
use std::str;
use std::test::Fail;

/// The one call on the ends that fails.
#[derive(Clone, Copy)]
pub enum Fault {
    None,
    /// The read of the number, of reads of at most 16 bytes.
    Read(u64),
    /// The write of the report of the number, of writes of at most so many bytes.
    Write(u64, usize),
    /// The write of the number on what stops the program.
    Error(u64),
}

/// The words, owned.
pub fn words_of(alloc: Global, words: &[&str]) -> Result<Vec<String>, AllocError> {
    let mut owned = Vec::new(alloc);
    for word in words {
        owned.push(String::from_str(alloc, word)?)?;
    }
    Ok(owned)
}

fn source_over(alloc: Global, bytes: Vec<u8>, fault: Fault) -> Result<MemorySource, AllocError> {
    let mut failing = Vec::new(alloc);
    match fault {
        Fault::Read(call) => {
            failing.push(call)?;
            Ok(MemorySource::new(bytes, failing).with_piece(16))
        }
        _ => Ok(MemorySource::new(bytes, failing)),
    }
}

fn sink_for_report(alloc: Global, fault: Fault) -> Result<MemorySink, AllocError> {
    let mut failing = Vec::new(alloc);
    match fault {
        Fault::Write(call, most) => {
            failing.push(call)?;
            Ok(MemorySink::new(alloc, most.max(1), failing))
        }
        _ => Ok(MemorySink::new(alloc, usize::MAX, failing)),
    }
}

fn sink_for_errors(alloc: Global, fault: Fault) -> Result<MemorySink, AllocError> {
    let mut failing = Vec::new(alloc);
    if let Fault::Error(call) = fault {
        failing.push(call)?;
    }
    Ok(MemorySink::new(alloc, 7, failing))
}

/// How many lines begin and end so.
fn lines_with(text: &str, start: &str, end: &str) -> usize {
    text.lines()
        .filter(|line| line.starts_with(start) && line.ends_with(end))
        .count()
}

fn has_lines(
    rt: &impl Abort,
    name: &str,
    held: &[u8],
    lines: &[(&str, &str, usize)],
) -> Result<(), Fail> {
    let text = str::from_utf8(held)?;
    for (start, end, count) in lines {
        assert_eq!(rt;
            lines_with(text, start, end),
            *count,
            "{name}: {start} .. {end}"
        );
    }
    Ok(())
}

fn holds(rt: &impl Abort, name: &str, held: &[u8], wanted: Out) -> Result<(), Fail> {
    match wanted {
        Out::Text(text) => assert_eq!(rt; held, text.as_bytes(), "{name}"),
        Out::Report => assert_eq!(rt; held, FUNCTION_REPORT.as_bytes(), "{name}"),
        Out::FrontOfReport => {
            assert!(rt; FUNCTION_REPORT.as_bytes().starts_with(held), "{name}")
        }
        Out::Lines(lines) => has_lines(rt, name, held, lines)?,
    }
    Ok(())
}

/// The run of the case over the bytes, of whose calls one fails, does what is wanted.
pub fn check_run(
    rt: &impl Abort,
    alloc: Global,
    case: &BadCase,
    bytes: Vec<u8>,
    fault: Fault,
) -> Result<(), Fail> {
    let mut source = source_over(alloc, bytes, fault)?;
    let mut out = sink_for_report(alloc, fault)?;
    let mut errs = sink_for_errors(alloc, fault)?;
    let words = words_of(alloc, case.words)?;
    let status = run(alloc, &words, &mut source, &mut out, &mut errs);
    let name = case.name;
    assert_eq!(rt; status, case.status, "{name}");
    assert_eq!(rt; errs.held(), case.errs.as_bytes(), "{name}");
    holds(rt, name, out.held(), case.out)
}
