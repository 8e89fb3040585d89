//! Writes the reports of the programs in the folder `programs`: those of the file `names` without words, those of the
//! file `rows` with nodes, classes and counts, and those of the file `checked` with early errors besides.

use crate::ends::words_of;
use report::run;
use report_ends::{Reading, Writing};
use std::fs::{self, File};
use std::io;

// Writes the report of one program, with its name before it and its status behind it.
fn report_of(rt: &HostRuntime, name: &str, words: &[String]) -> io::Result<()> {
    let alloc = rt.alloc();
    println!(rt; "program {name}")?;
    let path = format!(in alloc; "reports/programs/{name}.json")?;
    let mut source = Reading::new(File::open(rt, path.as_str())?);
    let mut out = Writing::new(rt.stdout());
    let mut errs = Writing::new(rt.stderr());
    let status = run(alloc, words, &mut source, &mut out, &mut errs);
    println!(rt; "status {}", status.code())
}

// Writes the reports of the programs that the file names.
fn reports_of(rt: &HostRuntime, file: &str, words: &[String]) -> io::Result<()> {
    let names = fs::read_to_string(rt, file)?;
    for name in names.lines() {
        report_of(rt, name, words)?;
    }
    Ok(())
}

/// Writes all reports.
pub fn write_all(rt: &HostRuntime) -> io::Result<()> {
    let alloc = rt.alloc();
    let all = words_of(alloc, &["--nodes", "--classes", "--stats"])?;
    let checking = words_of(alloc, &["--nodes", "--classes", "--stats", "--check"])?;
    reports_of(rt, "reports/names", &[])?;
    reports_of(rt, "reports/rows", &all)?;
    reports_of(rt, "reports/checked", &checking)
}
