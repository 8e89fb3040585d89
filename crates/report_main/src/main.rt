// Reads a program's tree as JSON from standard input, and writes the report of its scopes, symbols, bindings and
// references to standard output.
#![tactic(auto)]

use program_ends::run_over_standard_ends;
use report::{USAGE, run};
use std::process::ExitCode;

fn main(rt: HostRuntime) -> ExitCode {
    let status = run_over_standard_ends(&rt, 1, USAGE, |alloc, words, source, out, errs| {
        run(alloc, words, source, out, errs)
    });
    ExitCode::from(status.code())
}
