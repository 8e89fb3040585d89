//! The program, over any source and any sinks.
ghost use Rattle.std.specs.Prelude.{◌≡◌, ◌↔◌, IsTrue};
ghost use Rattle.semantic_model.specs.TablesOf.{tables_of};
ghost use Rattle.program_ends.specs.Answering.{WritesAll, GivesAnswer};
ghost use Rattle.program_ends.specs.Calls.{source_call, sink_call};
ghost use Rattle.program_ends.specs.Completeness.{IsClear, IsDoneOrMemory, IsUsageOrMemory};
ghost use Rattle.program_ends.specs.Faults.{FaultsEnd};
ghost use Rattle.program_ends.specs.FindingEnds.{end_of};
ghost use Rattle.program_ends.specs.Findings.{FindingMeans};
ghost use Rattle.tangle_lint.specs.Codes.{status_for};
ghost use Rattle.tangle_lint.specs.Lines.{tangle_lines};
ghost use Rattle.tangle_lint.specs.Meaning.{Answers};
ghost use Rattle.tangle_lint.specs.Telling.{usage_line};
ghost use Rattle.tangle_lint.specs.Words.{AreNone};

use crate::TangledStatus;
use crate::tangle_lines::write_tangles;
use program_ends::{FindingProgram, run_findings};
use report_ends::{ReportError, Sink, Source};
use scoping::Scoping;
use semantic::{SemanticBuilder, drop_analysis};
use semantic_tree::Program;
use std::alloc::Global;
use tangled_names::{TangledNames, tangled_names};

/// Whether there are no words.
fn are_none(words: &[String]) -> bool
    ensures { IsTrue result ↔ AreNone words.now }
{
    words.is_empty()
}

/// The status for lines that are written.
fn status_for(names: &TangledNames) -> TangledStatus
    ensures { result ≡ status_for names.now }
{
    if names.as_slice().is_empty() {
        TangledStatus::Done
    } else {
        TangledStatus::Found
    }
}

/// Writes the lines on what was found, and gives the status for them.
fn finish_answer<K: Sink>(
    alloc: Global,
    scoping: &Scoping,
    names: &TangledNames,
    out: &mut K,
) -> Result<TangledStatus, ReportError>
    ensures { WritesAll K.held K.faults out.old out.new (tangle_lines scoping.now names.now)
        (status_for names.now) result }
{
    write_tangles(alloc, scoping, names, out)?;
    Ok(status_for(names))
}

/// Finds the tangled names of a program with these tables, and writes their lines.
fn answer_by<K: Sink>(
    alloc: Global,
    program: &Program,
    scoping: &Scoping,
    out: &mut K,
) -> Result<TangledStatus, ReportError>
    requires { scoping.now ≡ tables_of program.now }
    ensures { GivesAnswer end_of Answers K.held K.faults out.old out.new program.now result }
{
    let names = tangled_names(alloc, program, scoping)?;
    finish_answer(alloc, scoping, &names, out)
}

/// Analyses a program, and writes the lines on its names.
fn answer<K: Sink>(
    alloc: Global,
    program: &Program,
    out: &mut K,
) -> Result<TangledStatus, ReportError>
    ensures { GivesAnswer end_of Answers K.held K.faults out.old out.new program.now result }
{
    let analysis = SemanticBuilder::new().build(alloc, program)?;
    let answered = answer_by(alloc, program, analysis.semantic.scoping(), out);
    drop_analysis(analysis);
    answered
}

/// The line on words, or that they can't be had.
pub const USAGE: &str = "usage: tangled_names\n";

/// The lint as a program.
struct TangleLint;

impl FindingProgram for TangleLint {
    ghost use Rattle.std.proofs.Common.{ap, ◌∙◌};
    ghost use Rattle.program_ends.specs.Meaning.{is_answer};
    ghost use Rattle.tangle_model.specs.Tangled.{tangles};
    ghost use Rattle.tangle_lint.specs.Codes.{status_answers};
    ghost use Rattle.tangle_lint.specs.Meaning.{Answers};
    ghost use Rattle.tangle_lint.specs.Telling.{usage_line};
    ghost use Rattle.tangle_lint.specs.Words.{AreNone};

    ghost IsAsked = { AreNone };

    ghost usage_line = { usage_line };

    ghost Answers = { λ _. Answers };

    ghost ends_answer = { λ words end program text answers. ap is_answer answers.ends
        ∙ status_answers (tangles program) };

    fn usage() -> &'static str {
        USAGE
    }

    fn is_asked(words: &[String]) -> bool {
        are_none(words)
    }

    fn answer<K: Sink>(
        alloc: Global,
        _words: &[String],
        program: &Program,
        out: &mut K,
    ) -> Result<TangledStatus, ReportError> {
        answer(alloc, program, out)
    }
}

/// Does all that the program does: it reads the whole input, which is a program's tree as JSON, and writes to `out` the
/// line `tangled Y "name" REASON ..` for each tangled name, with the number of its first symbol. `Done` is answered where
/// there is none. Where it can't it tells why on `errs`, in one line. Where there are words nothing is read.
pub fn run_tangled<S: Source, K: Sink, E: Sink>(
    alloc: Global,
    words: &[String],
    source: &mut S,
    out: &mut K,
    errs: &mut E,
) -> TangledStatus
    ensures means { FindingMeans (AreNone words.now) usage_line Answers
        (source_call S.left S.faults source.old source.new)
        (sink_call K.held K.faults out.old out.new)
        (sink_call E.held E.faults errs.old errs.new) result }
    ensures failing { FaultsEnd (source_call S.left S.faults source.old source.new)
        (sink_call K.held K.faults out.old out.new) (end_of result) }
    ensures complete { AreNone words.now
        → IsClear (source_call S.left S.faults source.old source.new)
        (sink_call K.held K.faults out.old out.new) → IsDoneOrMemory (end_of result) }
    ensures usage { (AreNone words.now → ⊥) → IsUsageOrMemory (end_of result) }
{
    run_findings::<TangleLint, S, K, E>(alloc, words, source, out, errs)
}
