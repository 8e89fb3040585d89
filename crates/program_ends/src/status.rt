//! How a program ends, by its own statuses.
ghost use Rattle.std.specs.Prelude.{◌≡◌};
ghost use Rattle.program_ends.specs.Calls.{sink_call};
ghost use Rattle.program_ends.specs.Ending.{TellsEnd, Finishes};
ghost use Rattle.program_ends.specs.Lines.{line_on_error};
ghost use Rattle.program_ends.specs.Telling.{stop_of};

use crate::stops::{Stop, tell_error, tell_stop};
use report_ends::{ReportError, Sink, WriteFault};
use std::alloc::Global;

/// The statuses of a program, each of which stands for an end.
pub trait Status: Copy {
    ghost use Rattle.program_ends.specs.Meaning.{End, end_of_stop, is_answer};

    /// The end that a status stands for.
    ghost end_of: { Self → End };

    /// The status for what stops the program.
    fn of_stop(stop: Stop) -> Self
        ensures { end_of result ≡ end_of_stop stop };

    /// Whether the program has answered.
    fn is_answer(self) -> bool
        ensures { result ≡ is_answer (end_of self) };
}

/// Tells an error's line, and answers its status, or that memory is wanting. The sink has taken a prefix of the line
/// then, and also where it failed.
pub fn tell<S: Status, E: Sink>(alloc: Global, error: &ReportError, errs: &mut E) -> S
    ensures { TellsEnd (sink_call E.held E.faults errs.old errs.new) (line_on_error error.now)
        (stop_of error.now) (S.end_of result) }
{
    S::of_stop(tell_error(alloc, error, errs))
}

/// Tells the line on words that are refused, and answers the status for that, or that memory is wanting.
pub fn refuse<S: Status, E: Sink>(usage: &str, errs: &mut E) -> S
    ensures { TellsEnd (sink_call E.held E.faults errs.old errs.new) usage.now Stop.Usage
        (S.end_of result) }
{
    S::of_stop(tell_stop(usage, Stop::Usage, errs))
}

/// The status once the last bytes that a buffer kept are handed on. A fault in that is told where all went well before,
/// and is the end then, or want of memory is.
pub fn finish<S: Status, E: Sink>(
    alloc: Global,
    status: S,
    flushed: Result<(), WriteFault>,
    errs: &mut E,
) -> S
    ensures { Finishes (sink_call E.held E.faults errs.old errs.new) (S.end_of status) flushed
        (S.end_of result) }
{
    match flushed {
        Ok(()) => status,
        Err(fault) => {
            if status.is_answer() {
                tell(alloc, &ReportError::from(fault), errs)
            } else {
                status
            }
        }
    }
}
