//! Runs over bad input and over ends that fail.
use super::bad_input::{BAD_INPUT, BadCase, Ends};
use super::cases::{FUNCTION, FUNCTION_REPORT};
use super::inputs::{Input, input_bytes, text_of};
use super::runs::{Fault, check_run};
use std::alloc::Global;
use std::process::Abort;
use std::test::Fail;

/// How many bytes a read moves at most, where one fails.
const PIECE: usize = 16;

/// How many bytes a write takes at most, where each fails in turn.
const MOST: usize = 7;

/// The fronts of the text but the whole do as the case says.
fn check_fronts(rt: &impl Abort, alloc: Global, case: &BadCase, text: &[u8]) -> Result<(), Fail> {
    for end in 0..text.len() {
        check_run(
            rt,
            alloc,
            case,
            Vec::from_slice(alloc, &text[..end])?,
            Fault::None,
        )?;
    }
    Ok(())
}

/// How many reads of the piece's length the function's tree takes: the last one meets the end.
fn reads_of_function() -> u64 {
    FUNCTION.len().div_ceil(PIECE) as u64 + 1
}

/// How many writes its report takes: each line is offered with its line feed, and what is left of it again.
fn writes_of_report() -> u64 {
    let mut writes: u64 = 0;
    for line in FUNCTION_REPORT.lines() {
        writes = writes.saturating_add(line.len().saturating_add(1).div_ceil(MOST) as u64);
    }
    writes
}

fn each_read_fails(rt: &impl Abort, alloc: Global, case: &BadCase) -> Result<(), Fail> {
    for call in 1..=reads_of_function() {
        check_run(
            rt,
            alloc,
            case,
            input_bytes(alloc, case.input)?,
            Fault::Read(call),
        )?;
    }
    Ok(())
}

fn each_write_fails(rt: &impl Abort, alloc: Global, case: &BadCase) -> Result<(), Fail> {
    for call in 1..=writes_of_report() {
        check_run(
            rt,
            alloc,
            case,
            input_bytes(alloc, case.input)?,
            Fault::Write(call, MOST),
        )?;
    }
    Ok(())
}

fn check(rt: &impl Abort, alloc: Global, case: &BadCase) -> Result<(), Fail> {
    let fault = match case.ends {
        Ends::EachReadFails => return each_read_fails(rt, alloc, case),
        Ends::EachWriteFails => return each_write_fails(rt, alloc, case),
        Ends::Whole => Fault::None,
        Ends::ReadBehindTheLastFails => Fault::Read(reads_of_function().saturating_add(1)),
        Ends::WriteBehindTheLastFails => Fault::Write(writes_of_report().saturating_add(1), MOST),
        Ends::WriteBehindTenBytesFails => Fault::Write(2, 10),
        Ends::FirstErrorFails => Fault::Error(1),
    };
    match case.input {
        Input::Cut(tree) => check_fronts(rt, alloc, case, text_of(tree).as_bytes()),
        input => check_run(rt, alloc, case, input_bytes(alloc, input)?, fault),
    }
}

#[test]
fn each_bad_input_has_its_answer(rt: HostRuntime) -> Result<(), Fail> {
    for case in BAD_INPUT {
        check(&rt, rt.alloc(), case)?;
    }
    Ok(())
}
