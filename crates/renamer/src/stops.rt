//! Tells why the program stopped.
ghost use Rattle.std.specs.Prelude.{◌≡◌, IfOk, string_bytes};
ghost use Rattle.program_ends.specs.Calls.{sink_call};
ghost use Rattle.program_ends.specs.Ending.{TellsEnd};
ghost use Rattle.renamer.specs.Answers.{refusal_line};
ghost use Rattle.renamer.specs.Codes.{end_of};
ghost use Rattle.renamer.specs.Telling.{TellsRefusal, TellsError, usage_line};

use crate::refusal::{Refusal, RequestError};
use crate::status::RenameStatus;
use program_ends::{Stop, numbered_line, refuse, tell, tell_line};
use report_ends::Sink;
use std::alloc::{AllocError, Global};

/// The line on words that are refused.
pub const USAGE: &str = "usage: renamer SYMBOL NAME\n";

/// Answers words that aren't a symbol's number and a name.
pub(crate) fn refuse_words<E: Sink>(errs: &mut E) -> RenameStatus
    ensures { TellsEnd (sink_call E.held E.faults errs.old errs.new) usage_line Stop.Usage
        (end_of result) }
{
    refuse(USAGE, errs)
}

fn refusal_line(alloc: Global, refusal: Refusal) -> Result<String, AllocError>
    ensures { IfOk result (λ line. string_bytes line ≡ refusal_line refusal) }
{
    match refusal {
        Refusal::NoSymbol(symbol) => numbered_line(alloc, "rename: no symbol ", symbol.index()),
        Refusal::BadName => String::from_str(alloc, "rename: bad name\n"),
        Refusal::Fixed(node) => numbered_line(alloc, "rename: name fixed at node ", node.index()),
        Refusal::Differs(node) => numbered_line(alloc, "rename: differs at node ", node.index()),
    }
}

/// Tells a refusal's line, and answers `Refused`, or that memory is wanting. The sink has taken a prefix of the line
/// then, and also where it failed.
fn tell_refusal<E: Sink>(alloc: Global, refusal: Refusal, errs: &mut E) -> RenameStatus
    ensures { TellsRefusal (sink_call E.held E.faults errs.old errs.new) (refusal_line refusal)
        (end_of result) }
{
    let Ok(line) = refusal_line(alloc, refusal) else {
        return RenameStatus::Memory;
    };
    match tell_line(&line, errs) {
        Ok(()) => RenameStatus::Refused,
        Err(_) => RenameStatus::Memory,
    }
}

/// Tells why a request isn't done.
pub(crate) fn tell_error<E: Sink>(alloc: Global, error: &RequestError, errs: &mut E) -> RenameStatus
    ensures { TellsError (sink_call E.held E.faults errs.old errs.new) error.now (end_of result) }
{
    match error {
        RequestError::Refused(refusal) => tell_refusal(alloc, *refusal, errs),
        RequestError::Stopped(cause) => tell(alloc, cause, errs),
    }
}
