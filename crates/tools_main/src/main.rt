//! The tools: the first word names the one that runs on the words behind it, and `serve` answers requests to all of them, one
//! behind the other. They are one program since two compilers make each program whole, whatever stands in it.
#![tactic(auto)]

use program_ends::{FindingStatus, Status, Stop, refuse, tell_stop};
use report_ends::{Reading, Writing};
use serving::{ServeFault, serve};
use std::env::Env;
use std::process::ExitCode;
use std::str;
use tools::{Tool, Tools};

/// The line on a first word that names no tool.
const USAGE: &str =
    "usage: tools_main report|renamer|mangler|name_lint|tangled_names|file_check|module_linker|serve [WORD ..]\n";

/// Room for the name of a tool, in bytes.
const LONGEST: usize = 16;

/// How many words name the program: its own name, and the tool's.
const NAMES: usize = 2;

/// What the first word asks for.
#[derive(Clone, Copy)]
enum Asked {
    Run(Tool),
    Serve,
}

/// What the first word asks for, if it is known. It is read apart from the words behind it, of which one may be no text.
fn first_word(rt: &HostRuntime) -> Option<Asked> {
    let mut name = [0; LONGEST];
    let length = rt.arg(1, &mut name).ok()?;
    let name = str::from_utf8(name.get(..length)?).ok()?;
    if name == "serve" {
        return Some(Asked::Serve);
    }
    Some(Asked::Run(Tool::named(name)?))
}

/// The line on what stopped the answers to requests.
fn line_of(fault: ServeFault) -> &'static str {
    match fault {
        ServeFault::Cut => "requests: the input ends within one\n",
        ServeFault::TooLong => "requests: too long\n",
        ServeFault::Words => "requests: words that are no text\n",
        ServeFault::TooMany => "requests: too many\n",
        ServeFault::Read => "read failed\n",
        ServeFault::Write => "write failed\n",
        ServeFault::Memory => "out of memory\n",
    }
}

/// At which stop a fault ends the answers to requests.
fn stop_of(fault: ServeFault) -> Stop {
    match fault {
        ServeFault::Cut | ServeFault::Words => Stop::Tree,
        ServeFault::TooLong | ServeFault::TooMany => Stop::TooLong,
        ServeFault::Read => Stop::Read,
        ServeFault::Write => Stop::Write,
        ServeFault::Memory => Stop::Memory,
    }
}

/// Answers requests from standard input on standard output, each as soon as it is read, and gives the exit status.
fn answer_requests(rt: &HostRuntime) -> u8 {
    let mut source = Reading::new(rt.stdin());
    let mut out = Writing::new(rt.stdout());
    match serve(rt.alloc(), &Tools, &mut source, &mut out) {
        Ok(()) => FindingStatus::Done.code(),
        Err(fault) => {
            let told = tell_stop(
                line_of(fault),
                stop_of(fault),
                &mut Writing::new(rt.stderr()),
            );
            FindingStatus::of_stop(told).code()
        }
    }
}

/// Refuses the words, and gives the exit status for that.
fn refuse_words(rt: &HostRuntime) -> u8 {
    let status: FindingStatus = refuse(USAGE, &mut Writing::new(rt.stderr()));
    status.code()
}

fn main(rt: HostRuntime) -> ExitCode {
    let code = match first_word(&rt) {
        Some(Asked::Run(tool)) => tool.run_over_standard_ends(&rt, NAMES).code(),
        Some(Asked::Serve) => answer_requests(&rt),
        None => refuse_words(&rt),
    };
    ExitCode::from(code)
}
