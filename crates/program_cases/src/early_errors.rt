//! Writes what is told of early errors, through `run` with the word `--check`. Each line of the file `cases` is a heading or
//! a case: the name of a program in the folder `programs`, and its source. Behind a case stand the lines on its diagnostics
//! and the status. tools/case-trees makes the programs of the file `cases`.

use crate::ends::words_of;
use report::run;
use report_ends::{Reading, SureSink, Writing};
use std::fs::{self, File};
use std::{io, str};

// Writes the lines of a report that are on diagnostics.
fn write_diagnostics(rt: &HostRuntime, report: &[u8]) -> io::Result<()> {
    let Ok(text) = str::from_utf8(report) else {
        return println!(rt; "no text");
    };
    for line in text.lines() {
        if line.starts_with("diag ") {
            println!(rt; "{line}")?;
        }
    }
    Ok(())
}

// Writes what is told of the program of the name, and the status.
fn write_case(rt: &HostRuntime, name: &str, words: &[String]) -> io::Result<()> {
    let alloc = rt.alloc();
    let path = format!(in alloc; "early_errors/programs/{name}.json")?;
    let mut source = Reading::new(File::open(rt, path.as_str())?);
    let mut out = SureSink::new(alloc);
    let mut errs = Writing::new(rt.stdout());
    let status = run(alloc, words, &mut source, &mut out, &mut errs);
    write_diagnostics(rt, out.held())?;
    println!(rt; "status {}", status.code())
}

/// Writes what is told of each program.
pub fn write_all(rt: &HostRuntime) -> io::Result<()> {
    let words = words_of(rt.alloc(), &["--check"])?;
    let cases = fs::read_to_string(rt, "early_errors/cases")?;
    for line in cases.lines() {
        println!(rt; "{line}")?;
        if let Some((name, _source)) = line.split_once(' ') {
            if name != "#" {
                write_case(rt, name, &words)?;
            }
        }
    }
    Ok(())
}
