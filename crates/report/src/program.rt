//! The program, over any source and any sinks.
ghost use Rattle.std.specs.Prelude.{◌≡◌, ◌≤◌, ℕ, List, Some, None, IfSome, IfErr};
ghost use Rattle.semantic_tree.specs.Tree.{Tree};
ghost use Rattle.generated_tree.specs.Generated.{generated, most_functions};
ghost use Rattle.program_ends.specs.Calls.{source_call, sink_call};
ghost use Rattle.program_ends.specs.Completeness.{IsNotRefused, IsDoneOrMemory, IsUsageOrMemory};
ghost use Rattle.program_ends.specs.Ending.{TellsEnd};
ghost use Rattle.program_ends.specs.Faults.{FaultsEnd, end_due};
ghost use Rattle.program_ends.specs.Reads.{Stands};
ghost use Rattle.program_ends.specs.FindingEnds.{end_of};
ghost use Rattle.report.specs.Meaning.{GivesAnswer, Ends, Means, IsClearFor};
ghost use Rattle.report_answers.specs.Requests.{request_of};
ghost use Rattle.report.specs.Telling.{usage_line};

use generated_tree::generated;
use program_ends::{Stop, read_program_from, refuse, tell};
use report_answers::{ReportStatus, Request, finish_answer, read_words};
use report_ends::{ReportError, Sink, Source};
use semantic::{SemanticBuilder, drop_analysis};
use semantic_tree::Program;
use std::alloc::Global;

/// The settings of the analysis that is asked for.
fn settings(request: Request) -> SemanticBuilder
    ensures nodes { result.build_nodes ≡ request.nodes }
    ensures classes { result.class_table ≡ request.classes }
    ensures check { result.check_syntax_error ≡ request.check }
{
    SemanticBuilder::new()
        .with_build_nodes(request.nodes)
        .with_class_table(request.classes)
        .with_check_syntax_error(request.check)
}

/// Analyses a program, and writes the answer to a request about it.
fn answer<K: Sink>(
    alloc: Global,
    request: Request,
    program: &Program,
    out: &mut K,
) -> Result<ReportStatus, ReportError>
    ensures { GivesAnswer K.held K.faults out.old out.new request program.now result }
{
    let ret = settings(request).build(alloc, program)?;
    let answered = finish_answer(alloc, request, &ret, out);
    drop_analysis(ret);
    answered
}

/// Reads a program, and writes the answer to a request about it.
fn answer_read<S: Source, K: Sink>(
    alloc: Global,
    request: Request,
    source: &mut S,
    out: &mut K,
) -> Result<ReportStatus, ReportError>
    requires { request.make ≡ None }
    ensures ends { Ends request (source_call S.left S.faults source.old source.new)
        (sink_call K.held K.faults out.old out.new) result }
    ensures failing { FaultsEnd (source_call S.left S.faults source.old source.new)
        (sink_call K.held K.faults out.old out.new) (end_due end_of result) }
    ensures complete { (input : List ℕ) (program : Tree) → S.left source.old ≡ Some input
        → Stands input program → IfErr result IsNotRefused }
{
    let program = read_program_from(alloc, source)?;
    answer(alloc, request, &program, out)
}

/// Makes a script of so many functions, and writes the answer to a request about it.
fn answer_made<K: Sink>(
    alloc: Global,
    request: Request,
    functions: u32,
    out: &mut K,
) -> Result<ReportStatus, ReportError>
    requires { functions ≤ most_functions }
    ensures { GivesAnswer K.held K.faults out.old out.new request (generated functions) result }
{
    let program = generated(alloc, functions)?;
    answer(alloc, request, &program, out)
}

/// Reads or makes a program, and writes the answer to a request about it. Where one is made nothing is read.
fn answer_request<S: Source, K: Sink>(
    alloc: Global,
    request: Request,
    source: &mut S,
    out: &mut K,
) -> Result<ReportStatus, ReportError>
    requires { IfSome request.make (λ functions. functions ≤ most_functions) }
    ensures ends { Ends request (source_call S.left S.faults source.old source.new)
        (sink_call K.held K.faults out.old out.new) result }
    ensures failing { FaultsEnd (source_call S.left S.faults source.old source.new)
        (sink_call K.held K.faults out.old out.new) (end_due end_of result) }
    ensures complete { request.make ≡ None → (input : List ℕ) (program : Tree)
        → S.left source.old ≡ Some input → Stands input program → IfErr result IsNotRefused }
{
    match request.make {
        None => answer_read(alloc, request, source, out),
        Some(functions) => answer_made(alloc, request, functions, out),
    }
}

/// The line on words that aren't known or can't be read.
pub const USAGE: &str = "usage: report [--check] [--nodes] [--classes] [--stats] [--make N]\n";

/// Answers words that aren't known or can't be read.
pub fn refuse_words<E: Sink>(errs: &mut E) -> ReportStatus
    ensures { TellsEnd (sink_call E.held E.faults errs.old errs.new) usage_line Stop.Usage
        (end_of result) }
{
    refuse(USAGE, errs)
}

/// Does all that the program does: it reads the whole input, which is a program's tree as JSON, and writes its report
/// on `out`; or it makes a script, and writes the summary of its analysis. By `--check` the diagnostics have the early
/// errors, too; it answers `Found` exactly where there are diagnostics. Where it can't answer it tells why on `errs`,
/// in one line. Where the words are refused, or ask for a script that is made, nothing is read.
pub fn run<S: Source, K: Sink, E: Sink>(
    alloc: Global,
    words: &[String],
    source: &mut S,
    out: &mut K,
    errs: &mut E,
) -> ReportStatus
    ensures means { Means (source_call S.left S.faults source.old source.new)
        (sink_call K.held K.faults out.old out.new)
        (sink_call E.held E.faults errs.old errs.new) words.now result }
    ensures failing { FaultsEnd (source_call S.left S.faults source.old source.new)
        (sink_call K.held K.faults out.old out.new) (end_of result) }
    ensures complete { IsClearFor (request_of words.now)
        (source_call S.left S.faults source.old source.new)
        (sink_call K.held K.faults out.old out.new) → IsDoneOrMemory (end_of result) }
    ensures usage { request_of words.now ≡ None → IsUsageOrMemory (end_of result) }
{
    let Some(request) = read_words(words) else {
        return refuse_words(errs);
    };
    match answer_request(alloc, request, source, out) {
        Ok(status) => status,
        Err(error) => tell(alloc, &error, errs),
    }
}
