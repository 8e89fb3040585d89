//! Tells why the program stopped.
ghost use Rattle.std.specs.Prelude.{◌≡◌, IfOk, string_bytes};
ghost use Rattle.program_ends.specs.Calls.{sink_call};
ghost use Rattle.program_ends.specs.Ending.{TellsEnd};
ghost use Rattle.module_linker.specs.Lines.{place_line, module_line, tree_refused_line, cause_line, usage_line};
ghost use Rattle.module_linker.specs.Telling.{stop_of_refusal, failure_line, failure_stop};
ghost use Rattle.program_ends.specs.FindingEnds.{end_of};

use crate::LinkStatus;
use crate::failure::LinkFailure;
use module_set::LinkError;
use program_ends::{Status, Stop, numbered_line, refuse, tell, tell_stop, tree_line};
use report_ends::Sink;
use semantic_syntax::NodeId;
use semantic_tree::TreeError;
use std::alloc::{AllocError, Global};

/// A text, with the numbers of a module and of one of its nodes behind it, as a line.
#[tactic(auto, unfolding(crate::specs::Lines::place_line))]
fn place_line(alloc: Global, text: &str, number: u32, node: NodeId) -> Result<String, AllocError>
    ensures { IfOk result (λ line. string_bytes line ≡ place_line text.now number node) }
{
    let place = node.index();
    format!(in alloc; "{text}{number} {place}\n")
}

/// A line behind the number of a module.
#[tactic(auto, unfolding(crate::specs::Lines::module_line))]
fn module_line(alloc: Global, number: u32, line: &str) -> Result<String, AllocError>
    ensures { IfOk result (λ whole. string_bytes whole ≡ module_line number line.now) }
{
    format!(in alloc; "link: module {number}: {line}")
}

/// The line on a module whose tree is refused.
fn tree_refused_line(alloc: Global, number: u32, cause: &TreeError) -> Result<String, AllocError>
    ensures { IfOk result (λ line. string_bytes line ≡ tree_refused_line number cause.now) }
{
    let line = tree_line(alloc, cause)?;
    module_line(alloc, number, &line)
}

/// The line on a refusal.
fn cause_line(alloc: Global, error: &LinkError) -> Result<String, AllocError>
    ensures { IfOk result (λ line. string_bytes line ≡ cause_line error.now) }
{
    match error {
        LinkError::NotJson => String::from_str(alloc, "link: not JSON\n"),
        LinkError::Shape => String::from_str(alloc, "link: shape\n"),
        LinkError::Tree(number, cause) => tree_refused_line(alloc, *number, cause),
        LinkError::NotModule(number) => {
            numbered_line(alloc, "link: not a module ", *number as usize)
        }
        LinkError::Twice(number) => numbered_line(alloc, "link: name twice ", *number as usize),
        LinkError::TwoExports(number, node) => {
            place_line(alloc, "link: export twice ", *number, *node)
        }
        LinkError::UnknownStar(number, node) => {
            place_line(alloc, "link: unknown star ", *number, *node)
        }
        LinkError::Memory(_) => String::from_str(alloc, "out of memory\n"),
    }
}

/// At which stop a refusal ends the program.
fn stop_of_refusal(error: &LinkError) -> Stop
    ensures { result ≡ stop_of_refusal error.now }
{
    match error {
        LinkError::Memory(_) => Stop::Memory,
        _ => Stop::Tree,
    }
}

/// Tells a refusal's line.
fn tell_refusal<E: Sink>(alloc: Global, error: &LinkError, errs: &mut E) -> LinkStatus
    ensures { TellsEnd (sink_call E.held E.faults errs.old errs.new) (cause_line error.now)
        (stop_of_refusal error.now) (end_of result) }
{
    match cause_line(alloc, error) {
        Ok(line) => LinkStatus::of_stop(tell_stop(&line, stop_of_refusal(error), errs)),
        Err(_) => LinkStatus::Memory,
    }
}

/// Tells the line on why no links are written, or not to their end, and answers its status, or that memory is wanting.
/// The sink has taken a prefix of the line then, and also where it failed.
pub(crate) fn tell_failure<E: Sink>(
    alloc: Global,
    failure: &LinkFailure,
    errs: &mut E,
) -> LinkStatus
    ensures { TellsEnd (sink_call E.held E.faults errs.old errs.new) (failure_line failure.now)
        (failure_stop failure.now) (end_of result) }
{
    match failure {
        LinkFailure::Refused(error) => tell_refusal(alloc, error, errs),
        LinkFailure::Stopped(error) => tell(alloc, error, errs),
    }
}

/// The line on words, for which there is no use.
pub const USAGE: &str = "usage: module_linker\n";

/// Answers words, for which there is no use.
pub(crate) fn refuse_words<E: Sink>(errs: &mut E) -> LinkStatus
    ensures { TellsEnd (sink_call E.held E.faults errs.old errs.new) usage_line Stop.Usage
        (end_of result) }
{
    refuse(USAGE, errs)
}
