//! The program, over any source and any sinks.
ghost use Rattle.std.specs.Prelude.{◌≡◌, ℕ, List, Some, None, IfErr};
ghost use Rattle.semantic_tree.specs.Tree.{Tree};
ghost use Rattle.program_ends.specs.Calls.{source_call, sink_call};
ghost use Rattle.program_ends.specs.Completeness.{IsClear, IsUsageOrMemory};
ghost use Rattle.program_ends.specs.Faults.{FaultsEnd};
ghost use Rattle.program_ends.specs.Reads.{Stands};
ghost use Rattle.renamer.specs.Answers.{answer_to, program_text};
ghost use Rattle.renamer.specs.Codes.{end_of};
ghost use Rattle.renamer.specs.Meaning.{WritesText, GivesAnswer, Ends, Means, IsGoodInput, IsOrMemory, end_due, end_for};
ghost use Rattle.renamer.specs.Requests.{RenameRequest, asked_in_request, request_of};

use crate::refusal::RequestError;
use crate::rename::{drop_program, rename_asked};
use crate::request::{Request, read_words};
use crate::status::RenameStatus;
use crate::stops::{refuse_words, tell_error};
use program_ends::read_program_from;
use report_ends::{ReportError, Sink, Source, write_whole};
use semantic_tree::Program;
use std::alloc::Global;
use tree_json::write_program;

/// Writes a program.
fn write_text<K: Sink>(alloc: Global, program: &Program, out: &mut K) -> Result<(), ReportError>
    ensures { WritesText K.held K.faults out.old out.new (program_text program.now) result }
{
    let text = write_program(alloc, program)?;
    write_whole(&text, out)
}

/// Writes the answer to a request about a program.
fn answer<K: Sink>(
    alloc: Global,
    request: &Request<'_>,
    program: &Program,
    out: &mut K,
) -> Result<(), RequestError>
    ensures { GivesAnswer K.held K.faults out.old out.new
        (asked_in_request request.now) program.now result }
{
    let made = rename_asked(alloc, program, request)?;
    let written = write_text(alloc, &made, out);
    drop_program(made);
    written?;
    Ok(())
}

/// Reads a program, and writes the answer to a request about it.
fn answer_request<S: Source, K: Sink>(
    alloc: Global,
    request: &Request<'_>,
    source: &mut S,
    out: &mut K,
) -> Result<(), RequestError>
    ensures ends { Ends (asked_in_request request.now)
        (source_call S.left S.faults source.old source.new)
        (sink_call K.held K.faults out.old out.new) result }
    ensures failing { FaultsEnd (source_call S.left S.faults source.old source.new)
        (sink_call K.held K.faults out.old out.new) (end_due result) }
    ensures complete { (input : List ℕ) (program : Tree) → S.left source.old ≡ Some input
        → Stands input program → IfErr result IsGoodInput }
{
    let program = read_program_from(alloc, source)?;
    let answered = answer(alloc, request, &program, out);
    drop_program(program);
    answered
}

/// Does all that the program does. The words are the number of a symbol and its new name. It reads the whole input,
/// which is a program's tree as JSON, and writes on `out` the tree of the program in which the symbol has the name.
/// Where it can't, or may not, it tells why on `errs`, in one line. Where the words are refused nothing is read.
pub fn run_rename<S: Source, K: Sink, E: Sink>(
    alloc: Global,
    words: &[String],
    source: &mut S,
    out: &mut K,
    errs: &mut E,
) -> RenameStatus
    ensures means { Means (source_call S.left S.faults source.old source.new)
        (sink_call K.held K.faults out.old out.new)
        (sink_call E.held E.faults errs.old errs.new) words.now result }
    ensures failing { FaultsEnd (source_call S.left S.faults source.old source.new)
        (sink_call K.held K.faults out.old out.new) (end_of result) }
    // Where no end fails and the input stands for a program, it is renamed where that is not refused, but for want of memory.
    ensures complete { (asked : RenameRequest) → request_of words.now ≡ Some asked
        → (clear : IsClear (source_call S.left S.faults source.old source.new)
        (sink_call K.held K.faults out.old out.new))
        → IsOrMemory (end_for (answer_to asked clear.program)) (end_of result) }
    ensures usage { request_of words.now ≡ None → IsUsageOrMemory (end_of result) }
{
    let Some(request) = read_words(words) else {
        return refuse_words(errs);
    };
    match answer_request(alloc, &request, source, out) {
        Ok(()) => RenameStatus::Done,
        Err(error) => tell_error(alloc, &error, errs),
    }
}
