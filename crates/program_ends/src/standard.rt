//! Runs a program over the real ends.
ghost use Rattle.std.specs.Prelude.{◌≡◌, IfErr};
ghost use Rattle.std.specs.IoError.{error_kind};
ghost use Rattle.program_ends.specs.Running.{EndsRun};

use crate::status::{Status, finish, refuse, tell};
use report_ends::{Reading, ReportError, Writing};
use std::alloc::{AllocError, Global};
use std::env;
use std::io::{self, BufWriter, ErrorKind, Stderr, Stdin, Stdout};

/// How many bytes of the answer are handed on at once.
const BUFFER: usize = 65_536;

/// The words behind those that name the program.
fn told_words(rt: &HostRuntime, names: usize) -> io::Result<Vec<String>> {
    let mut words = Vec::new(rt.alloc());
    for word in env::args(rt)?.skip(names) {
        words.push(word).map_err(AllocError::from)?;
    }
    Ok(words)
}

/// The words behind those that name the program, or none where they can't be had. The only error is want of memory.
fn words_of(rt: &HostRuntime, names: usize) -> io::Result<Option<Vec<String>>>
    ensures { IfErr result (λ error. error_kind error ≡ ErrorKind.OutOfMemory) }
{
    match told_words(rt, names) {
        Ok(words) => Ok(Some(words)),
        Err(error) if error.kind() == ErrorKind::OutOfMemory => Err(error),
        Err(_) => Ok(None),
    }
}

/// The words behind those that name the program, and a buffer before standard output; none where the words can't be had.
/// The only error is want of memory.
fn words_and_out(
    rt: &HostRuntime,
    names: usize,
) -> io::Result<Option<(Vec<String>, Writing<BufWriter<Stdout>>)>> {
    let Some(words) = words_of(rt, names)? else {
        return Ok(None);
    };
    let out = Writing::new(BufWriter::with_capacity(rt.alloc(), BUFFER, rt.stdout())?);
    Ok(Some((words, out)))
}

/// Runs a program over standard input, output and error. Of the words it is given those behind the first `names`, which name
/// it: its own name, and maybe a word that says which of several programs it is. Words that can't be had are refused with the
/// line on that, and want of memory is told.
pub fn run_over_standard_ends<S: Status, Run>(
    rt: &HostRuntime,
    names: usize,
    usage: &str,
    run: Run,
) -> S
where
    Run: FnOnce(
        Global,
        &[String],
        &mut Reading<Stdin>,
        &mut Writing<BufWriter<Stdout>>,
        &mut Writing<Stderr>,
    ) -> S,
    requires { Run.IsAlwaysCallable run }
    ensures { EndsRun S.end_of (λ status. (alloc : _) × (words : _) × (source : _) × (out : _)
        × (errs : _) × (source_then : _) × (out_then : _) × (errs_then : _)
        × Run.post run alloc words source out errs status source_then out_then errs_then) result }
{
    let alloc = rt.alloc();
    let mut errs = Writing::new(rt.stderr());
    match words_and_out(rt, names) {
        Ok(Some((words, mut out))) => {
            let mut source = Reading::new(rt.stdin());
            let status = run(alloc, &words, &mut source, &mut out, &mut errs);
            let flushed = out.flush();
            finish(alloc, status, flushed, &mut errs)
        }
        Ok(None) => refuse(usage, &mut errs),
        Err(_) => tell(alloc, &ReportError::Memory, &mut errs),
    }
}
