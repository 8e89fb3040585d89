// Runs of the program over ends in memory.
use super::cases::{UNREAD, USAGE, Unread};
use super::runs::words_of;
use report::{ReportStatus, run};
use report_ends::{MemorySource, SureSink};
use std::alloc::{AllocError, Global};
use std::process::Abort;
use std::test::Fail;

// The number of one call that fails.
fn failing(alloc: Global, call: u64) -> Result<Vec<u64>, AllocError> {
    let mut calls = Vec::new(alloc);
    calls.push(call)?;
    Ok(calls)
}

// The first read would fail, and so tell that there was one.
fn check_unread(rt: &impl Abort, alloc: Global, case: &Unread) -> Result<(), Fail> {
    let mut source = MemorySource::new(Vec::new(alloc), failing(alloc, 1)?);
    let mut out = SureSink::new(alloc);
    let mut errs = SureSink::new(alloc);
    let words = words_of(alloc, case.words)?;
    let status = run(alloc, &words, &mut source, &mut out, &mut errs);
    let line = if status == ReportStatus::Usage {
        USAGE
    } else {
        ""
    };
    assert_eq!(rt; status, case.status);
    assert_eq!(rt; out.held(), case.out.as_bytes());
    assert_eq!(rt; errs.held(), line.as_bytes());
    Ok(())
}

#[test]
fn words_for_which_nothing_is_read(rt: HostRuntime) -> Result<(), Fail> {
    for case in UNREAD {
        check_unread(&rt, rt.alloc(), case)?;
    }
    Ok(())
}
