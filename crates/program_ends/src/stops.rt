//! Tells why a program stopped.
ghost use Rattle.std.specs.Prelude.{◌≡◌, IfOk, string_bytes, ◌++◌};
ghost use Rattle.program_ends.specs.Calls.{sink_call};
ghost use Rattle.program_ends.specs.Lines.{numbered_line, span_line, tree_line, line_on_error};
ghost use Rattle.program_ends.specs.Telling.{TellsLine, TellsAtEnd, stop_of};

use report_ends::{ReportError, Sink, write_whole};
use semantic_tree::{SpanFault, TreeError};
use std::alloc::{AllocError, Global};

/// What stops a program before its answer is written.
#[derive(Clone, Copy, Debug, PartialEq, Eq)]
pub enum Stop {
    /// The words are refused.
    Usage,
    /// The input is refused.
    Tree,
    /// The input is too long.
    TooLong,
    /// A call on the source failed.
    Read,
    /// A call on the sink failed.
    Write,
    /// Memory is wanting.
    Memory,
}

/// Tells a line. The error is want of memory; the sink has taken a prefix of the line then, and also where it failed.
pub fn tell_line<E: Sink>(line: &str, errs: &mut E) -> Result<(), AllocError>
    ensures { TellsLine (sink_call E.held E.faults errs.old errs.new) line.now result }
{
    match write_whole(line.as_bytes(), errs) {
        Err(ReportError::Memory) => Err(AllocError),
        _ => Ok(()),
    }
}

/// Tells a line, and answers the stop, or that memory is wanting.
pub fn tell_stop<E: Sink>(line: &str, stop: Stop, errs: &mut E) -> Stop
    ensures { TellsAtEnd (sink_call E.held E.faults errs.old errs.new) line.now stop result }
{
    match tell_line(line, errs) {
        Ok(()) => stop,
        Err(_) => Stop::Memory,
    }
}

/// At which stop an error ends a program.
fn stop_of(error: &ReportError) -> Stop
    ensures { result ≡ stop_of error.now }
{
    match error {
        ReportError::Tree(_) => Stop::Tree,
        ReportError::TooLong => Stop::TooLong,
        ReportError::Read => Stop::Read,
        ReportError::Write => Stop::Write,
        ReportError::Memory => Stop::Memory,
    }
}

/// A text with a number behind it, as a line.
#[tactic(auto, unfolding(crate::specs::Lines::numbered_line))]
pub fn numbered_line(alloc: Global, text: &str, number: usize) -> Result<String, AllocError>
    ensures { IfOk result (λ line. string_bytes line ≡ numbered_line text.now number) }
{
    format!(in alloc; "{text}{number}\n")
}

fn span_line(alloc: Global, fault: SpanFault) -> Result<String, AllocError>
    ensures { IfOk result (λ line. string_bytes line ≡ span_line fault) }
{
    match fault {
        SpanFault::Node(node) => numbered_line(alloc, "tree: span at node ", node.index()),
        SpanFault::Comment(comment) => {
            numbered_line(alloc, "tree: span at comment ", comment as usize)
        }
    }
}

/// The line on a refused tree.
pub fn tree_line(alloc: Global, cause: &TreeError) -> Result<String, AllocError>
    ensures { IfOk result (λ line. string_bytes line ≡ tree_line cause.now) }
{
    match cause {
        TreeError::NotJson => String::from_str(alloc, "tree: not JSON\n"),
        TreeError::Shape(None) => String::from_str(alloc, "tree: shape\n"),
        TreeError::Shape(Some(node)) => numbered_line(alloc, "tree: shape at node ", node.index()),
        TreeError::TooMany => String::from_str(alloc, "tree: too many\n"),
        TreeError::TooDeep(node) => numbered_line(alloc, "tree: too deep at node ", node.index()),
        TreeError::Span(fault) => span_line(alloc, *fault),
        TreeError::Memory(_) => String::from_str(alloc, "out of memory\n"),
    }
}

fn error_line(alloc: Global, error: &ReportError) -> Result<String, AllocError>
    ensures { IfOk result (λ line. string_bytes line ≡ line_on_error error.now) }
{
    match error {
        ReportError::Tree(cause) => tree_line(alloc, cause),
        ReportError::TooLong => String::from_str(alloc, "input too long\n"),
        ReportError::Read => String::from_str(alloc, "read failed\n"),
        ReportError::Write => String::from_str(alloc, "write failed\n"),
        ReportError::Memory => String::from_str(alloc, "out of memory\n"),
    }
}

/// Tells an error's line, and answers its stop, or that memory is wanting. The sink has taken a prefix of the line
/// then, and also where it failed.
pub(crate) fn tell_error<E: Sink>(alloc: Global, error: &ReportError, errs: &mut E) -> Stop
    ensures { TellsAtEnd (sink_call E.held E.faults errs.old errs.new) (line_on_error error.now)
        (stop_of error.now) result }
{
    match error_line(alloc, error) {
        Ok(line) => tell_stop(&line, stop_of(error), errs),
        Err(_) => Stop::Memory,
    }
}
