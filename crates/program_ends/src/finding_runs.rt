//! Runs a program that looks for findings, over any source and any sinks.
ghost use Rattle.std.specs.Prelude.{◌≡◌, ℕ, List, Some, IfErr};
ghost use Rattle.semantic_tree.specs.Tree.{Tree};
ghost use Rattle.program_ends.specs.Answering.{EndsBy};
ghost use Rattle.program_ends.specs.Calls.{source_call, sink_call};
ghost use Rattle.program_ends.specs.Completeness.{IsClear, IsNotRefused, IsDoneOrMemory, IsUsageOrMemory};
ghost use Rattle.program_ends.specs.Faults.{FaultsEnd, end_due};
ghost use Rattle.program_ends.specs.FindingEnds.{end_of};
ghost use Rattle.program_ends.specs.Findings.{FindingMeans};
ghost use Rattle.program_ends.specs.Meaning.{Finds};
ghost use Rattle.program_ends.specs.Reads.{Stands};

use crate::finding::FindingStatus;
use crate::input::read_program_from;
use crate::status::{refuse, tell};
use report_ends::{ReportError, Sink, Source};
use semantic_tree::Program;
use std::alloc::Global;

/// A program that looks for findings in the program that its input stands for: which words it takes, its line on others,
/// and its answer.
pub trait FindingProgram {
    ghost use Rattle.std.specs.Prelude.{◌≡◌, ◌↔◌, ℕ, List, String, IsTrue, true};
    ghost use Rattle.std.specs.declared.alloc.Global.{Global};
    ghost use Rattle.semantic_tree.specs.Tree.{Tree};
    ghost use Rattle.program_ends.specs.Answering.{GivesAnswer};
    ghost use Rattle.program_ends.specs.FindingEnds.{end_of};
    ghost use Rattle.program_ends.specs.Meaning.{End, is_answer};

    /// Whether words are in order.
    ghost IsAsked: { List (String Global) → Type 0 };

    /// The line on words that aren't.
    ghost usage_line: { List ℕ };

    /// The texts that it may answer to words about a program, each with its end.
    ghost Answers: { List (String Global) → End → Tree → List ℕ → Type 0 };

    /// The line on words that aren't in order.
    fn usage() -> &'static str
        ensures { result.now ≡ usage_line };

    /// Whether the words are in order.
    fn is_asked(words: &[String]) -> bool
        ensures { IsTrue result ↔ IsAsked words.now };

    /// Writes its answer about a program, and gives the status for it.
    fn answer<K: Sink>(
        alloc: Global,
        words: &[String],
        program: &Program,
        out: &mut K,
    ) -> Result<FindingStatus, ReportError>
        ensures { GivesAnswer end_of (Answers words.now) K.held K.faults out.old out.new
            program.now result };

    /// Each of these ends is one of an answer.
    ghost ends_answer: { (words : List (String Global)) (end : End) (program : Tree) (text : List ℕ)
        → Answers words end program text → is_answer end ≡ true };
}

/// Reads a program, and writes the answer about it.
fn answer_input<P: FindingProgram, S: Source, K: Sink>(
    alloc: Global,
    words: &[String],
    source: &mut S,
    out: &mut K,
) -> Result<FindingStatus, ReportError>
    requires { P.IsAsked words.now }
    ensures ends { EndsBy end_of (P.IsAsked words.now) (Finds Stands) (P.Answers words.now)
        (source_call S.left S.faults source.old source.new)
        (sink_call K.held K.faults out.old out.new) result }
    ensures failing { FaultsEnd (source_call S.left S.faults source.old source.new)
        (sink_call K.held K.faults out.old out.new) (end_due end_of result) }
    ensures complete { (input : List ℕ) (program : Tree) → S.left source.old ≡ Some input
        → Stands input program → IfErr result IsNotRefused }
{
    let program = read_program_from(alloc, source)?;
    P::answer(alloc, words, &program, out)
}

/// Does all that the program does: it reads the whole input, which is a program's tree as JSON, and writes its answer about
/// it to `out`. Where it can't it tells why on `errs`, in one line. Where the words aren't in order nothing is read.
pub fn run_findings<P: FindingProgram, S: Source, K: Sink, E: Sink>(
    alloc: Global,
    words: &[String],
    source: &mut S,
    out: &mut K,
    errs: &mut E,
) -> FindingStatus
    ensures means { FindingMeans (P.IsAsked words.now) P.usage_line (P.Answers words.now)
        (source_call S.left S.faults source.old source.new)
        (sink_call K.held K.faults out.old out.new)
        (sink_call E.held E.faults errs.old errs.new) result }
    ensures failing { FaultsEnd (source_call S.left S.faults source.old source.new)
        (sink_call K.held K.faults out.old out.new) (end_of result) }
    ensures complete { P.IsAsked words.now
        → IsClear (source_call S.left S.faults source.old source.new)
        (sink_call K.held K.faults out.old out.new) → IsDoneOrMemory (end_of result) }
    ensures usage { (P.IsAsked words.now → ⊥) → IsUsageOrMemory (end_of result) }
{
    if !P::is_asked(words) {
        return refuse(P::usage(), errs);
    }
    match answer_input::<P, S, K>(alloc, words, source, out) {
        Ok(status) => status,
        Err(error) => tell(alloc, &error, errs),
    }
}
