//! The answer to a request, from what an analysis found.
ghost use Rattle.std.specs.Prelude.{◌≡◌};
ghost use Rattle.report_ends.specs.Streams.{Writes};
ghost use Rattle.program_ends.specs.Answering.{WritesAll};
ghost use Rattle.report_answers.specs.Codes.{status_for};
ghost use Rattle.report_answers.specs.Found.{found_in};
ghost use Rattle.report_answers.specs.Report.{answer_text};

use crate::ReportStatus;
use crate::request::Request;
use crate::write::{write_report, write_summary};
use report_ends::{ReportError, Sink};
use semantic_diagnostics::Diagnostics;
use semantic_queries::SemanticBuilderReturn;
use std::alloc::Global;

/// The status for an answer that is written.
fn status_for(diagnostics: &Diagnostics) -> ReportStatus
    ensures { result ≡ status_for diagnostics.now }
{
    if diagnostics.len() == 0 {
        ReportStatus::Done
    } else {
        ReportStatus::Found
    }
}

/// Writes the answer to a request.
fn write_answer<K: Sink>(
    alloc: Global,
    request: Request,
    ret: &SemanticBuilderReturn<'_>,
    out: &mut K,
) -> Result<(), ReportError>
    ensures { Writes K.held K.faults out.old out.new
        (answer_text request (found_in ret.now)) result }
{
    match request.make {
        None => write_report(alloc, ret, request.options(), out),
        Some(_) => write_summary(alloc, ret, out),
    }
}

/// Writes the answer to a request, and gives the status for it.
pub fn finish_answer<K: Sink>(
    alloc: Global,
    request: Request,
    ret: &SemanticBuilderReturn<'_>,
    out: &mut K,
) -> Result<ReportStatus, ReportError>
    ensures { WritesAll K.held K.faults out.old out.new (answer_text request (found_in ret.now))
        (status_for ret.now.diagnostics) result }
{
    write_answer(alloc, request, ret, out)?;
    Ok(status_for(&ret.diagnostics))
}
