//! Runs the check of a file over the programs of the lint of names and over those of the reports, and tells whether it writes
//! what the report with early errors and the lint write, one behind the other. Then what it writes of one program, and over
//! ends that fail.
use crate::ends::{failing, words_of};
use crate::found_names::{names_in, write_end};
use file_check::run_check;
use name_lint::run_names;
use report::run;
use report_ends::{MemorySink, MemorySource, SureSink, SureSource};
use std::alloc::{AllocError, Global};
use std::{fs, io};

// A source of these bytes.
fn source_of(alloc: Global, tree: &str) -> Result<SureSource, AllocError> {
    Ok(SureSource::new(Vec::from_slice(alloc, tree.as_bytes())?))
}

// Writes what the report and then the lint write of a tree, and gives their statuses.
fn write_apart(
    alloc: Global,
    tree: &str,
    known: &[String],
    out: &mut SureSink,
) -> Result<(u8, u8), AllocError> {
    let mut errs = SureSink::new(alloc);
    let words = words_of(alloc, &["--check"])?;
    let reported = run(alloc, &words, &mut source_of(alloc, tree)?, out, &mut errs);
    let named = run_names(alloc, known, &mut source_of(alloc, tree)?, out, &mut errs);
    Ok((reported.code(), named.code()))
}

// Tells the statuses of all three over a tree, and whether they write the same.
fn compare(rt: &HostRuntime, name: &str, tree: &str, known: &[String]) -> io::Result<()> {
    let alloc = rt.alloc();
    let mut apart = SureSink::new(alloc);
    let (reported, named) = write_apart(alloc, tree, known, &mut apart)?;
    let mut out = SureSink::new(alloc);
    let mut errs = SureSink::new(alloc);
    let status = run_check(
        alloc,
        known,
        &mut source_of(alloc, tree)?,
        &mut out,
        &mut errs,
    );
    let same = if out.held() == apart.held() {
        "the same text"
    } else {
        "another text"
    };
    println!(rt;
        "{name}: {reported} and {named} give {}, {same}",
        status.code()
    )
}

// Compares the programs of the lint, each with the names that are known beside it.
fn compare_named(rt: &HostRuntime) -> io::Result<()> {
    let alloc = rt.alloc();
    let names = fs::read_to_string(rt, "found_names/names")?;
    for name in names.lines() {
        let path = format!(in alloc; "found_names/programs/{name}.json")?;
        let tree = fs::read_to_string(rt, path.as_str())?;
        let path = format!(in alloc; "found_names/programs/{name}.known")?;
        let known = names_in(alloc, fs::read_to_string(rt, path.as_str())?.as_str())?;
        compare(rt, name, tree.as_str(), &known)?;
    }
    Ok(())
}

// Compares the programs of the reports with early errors, where no name is known.
fn compare_reported(rt: &HostRuntime) -> io::Result<()> {
    let names = fs::read_to_string(rt, "reports/checked")?;
    for name in names.lines() {
        let path = format!(in rt.alloc(); "reports/programs/{name}.json")?;
        let tree = fs::read_to_string(rt, path.as_str())?;
        compare(rt, name, tree.as_str(), &[])?;
    }
    Ok(())
}

// Writes the run over a tree of which a read or a write fails, if it isn't 0: the read or the write of this number.
fn write_run(rt: &HostRuntime, tree: &str, read: u64, write: u64) -> io::Result<()> {
    let alloc = rt.alloc();
    let bytes = Vec::from_slice(alloc, tree.as_bytes())?;
    let mut source = MemorySource::new(bytes, failing(alloc, read)?);
    let mut out = MemorySink::new(alloc, 100, failing(alloc, write)?);
    let mut errs = SureSink::new(alloc);
    println!(rt; "read {read} and write {write} fail")?;
    let status = run_check(alloc, &[], &mut source, &mut out, &mut errs);
    write_end(rt, status, out.held(), errs.held())
}

/// Writes how the check answers.
pub fn write_all(rt: &HostRuntime) -> io::Result<()> {
    compare_named(rt)?;
    compare_reported(rt)?;
    let tree = fs::read_to_string(rt, "found_names/programs/unused-and-undeclared-names.json")?;
    write_run(rt, tree.as_str(), 0, 0)?;
    write_run(rt, tree.as_str(), 1, 0)?;
    write_run(rt, tree.as_str(), 0, 1)?;
    write_run(rt, tree.as_str(), 0, 18)
}
