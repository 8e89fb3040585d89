//! Runs the lint of tangled names over the programs of the folder `programs`, which the file `names` lists, and with a word,
//! over an input that is no tree and over a sink whose write fails. It writes what each run writes and answers.
use crate::ends::{failing, words_of};
use crate::found_names::write_end;
use report_ends::{MemorySink, SureSink, SureSource};
use std::alloc::AllocError;
use std::{fs, io};
use tangle_lint::run_tangled;

// Writes the run over an input with the words.
fn write_run(rt: &HostRuntime, input: &str, words: &[String]) -> io::Result<()> {
    let alloc = rt.alloc();
    let bytes = Vec::from_slice(alloc, input.as_bytes()).map_err(AllocError::from)?;
    let mut source = SureSource::new(bytes);
    let mut out = SureSink::new(alloc);
    let mut errs = SureSink::new(alloc);
    let status = run_tangled(alloc, words, &mut source, &mut out, &mut errs);
    write_end(rt, status, out.held(), errs.held())
}

// Writes the run whose first write fails.
fn write_failing(rt: &HostRuntime, input: &str) -> io::Result<()> {
    let alloc = rt.alloc();
    let mut source = SureSource::new(Vec::from_slice(alloc, input.as_bytes())?);
    let mut out = MemorySink::new(alloc, 7, failing(alloc, 1)?);
    let mut errs = SureSink::new(alloc);
    let status = run_tangled(alloc, &[], &mut source, &mut out, &mut errs);
    write_end(rt, status, out.held(), errs.held())
}

// The tree of the program of the name.
fn tree_of(rt: &HostRuntime, name: &str) -> io::Result<String> {
    let path = format!(in rt.alloc(); "tangled_names/programs/{name}.json")?;
    fs::read_to_string(rt, path.as_str())
}

/// Writes all that the lint finds and answers.
pub fn write_all(rt: &HostRuntime) -> io::Result<()> {
    let names = fs::read_to_string(rt, "tangled_names/names")?;
    for name in names.lines() {
        println!(rt; "{name}")?;
        let tree = tree_of(rt, name)?;
        write_run(rt, tree.as_str(), &[])?;
    }
    let tree = tree_of(rt, "two-blocks")?;
    println!(rt; "a word, no tree, a write that fails")?;
    write_run(rt, tree.as_str(), &words_of(rt.alloc(), &["f"])?)?;
    write_run(rt, "x", &[])?;
    write_failing(rt, tree.as_str())
}
