//! The program, over any source and any sinks.
ghost use Rattle.program_ends.specs.Calls.{source_call, sink_call};
ghost use Rattle.program_ends.specs.Completeness.{IsClear, IsDoneOrMemory, IsUsageOrMemory};
ghost use Rattle.program_ends.specs.Faults.{FaultsEnd};
ghost use Rattle.program_ends.specs.FindingEnds.{end_of};
ghost use Rattle.program_ends.specs.Findings.{FindingMeans};
ghost use Rattle.name_lint.specs.Words.{AreNames};
ghost use Rattle.file_check.specs.Meaning.{Answers};
ghost use Rattle.file_check.specs.Telling.{usage_line};

use crate::CheckStatus;
use crate::answer::answer;
use name_lint::are_names;
use program_ends::{FindingProgram, run_findings};
use report_ends::{ReportError, Sink, Source};
use semantic_tree::Program;
use std::alloc::Global;

/// The line on words that aren't names, or can't be had.
pub const USAGE: &str = "usage: file_check [NAME ..]\n";

/// The check as a program.
struct FileCheck;

impl FindingProgram for FileCheck {
    ghost use Rattle.std.proofs.Common.{ap, ◌∙◌};
    ghost use Rattle.program_ends.specs.FindingEnds.{end_of};
    ghost use Rattle.program_ends.specs.Meaning.{is_answer};
    ghost use Rattle.report_answers.specs.Codes as report;
    ghost use Rattle.name_lint.specs.Known.{known_names};
    ghost use Rattle.name_lint.specs.Undeclared.{undeclared};
    ghost use Rattle.name_lint.specs.Words.{AreNames};
    ghost use Rattle.file_check.specs.Codes.{end_of_both, both_answer};
    ghost use Rattle.file_check.specs.Meaning.{Answers};
    ghost use Rattle.file_check.specs.Telling.{usage_line};

    ghost IsAsked = { AreNames };

    ghost usage_line = { usage_line };

    ghost Answers = { Answers };

    ghost ends_answer = { λ words end program text answers. ap is_answer (answers.ends
        ∙ ap (λ e. end_of_both e answers.names_end) answers.reported.ends
        ∙ ap (end_of_both (end_of (report.status_for answers.reported.diagnostics)))
        answers.named.ends)
        ∙ both_answer answers.reported.diagnostics answers.named.unused
        (undeclared (known_names words) program) };

    fn usage() -> &'static str {
        USAGE
    }

    fn is_asked(words: &[String]) -> bool {
        are_names(words)
    }

    fn answer<K: Sink>(
        alloc: Global,
        words: &[String],
        program: &Program,
        out: &mut K,
    ) -> Result<CheckStatus, ReportError> {
        answer(alloc, words, program, out)
    }
}

/// Does all that the program does: it reads the whole input, which is a program's tree as JSON, analyses it once, and
/// writes to `out` what the report says of it by `--check`, and then what the lint of names says, where the words are
/// known. No line of the one begins with a word with which a line of the other begins. `Done` is answered where there are
/// neither diagnostics nor lines of the lint. Where it can't it tells why on `errs`, in one line. Where a word is empty
/// nothing is read.
pub fn run_check<S: Source, K: Sink, E: Sink>(
    alloc: Global,
    words: &[String],
    source: &mut S,
    out: &mut K,
    errs: &mut E,
) -> CheckStatus
    ensures means { FindingMeans (AreNames words.now) usage_line (Answers words.now)
        (source_call S.left S.faults source.old source.new)
        (sink_call K.held K.faults out.old out.new)
        (sink_call E.held E.faults errs.old errs.new) result }
    ensures failing { FaultsEnd (source_call S.left S.faults source.old source.new)
        (sink_call K.held K.faults out.old out.new) (end_of result) }
    ensures complete { AreNames words.now
        → IsClear (source_call S.left S.faults source.old source.new)
        (sink_call K.held K.faults out.old out.new) → IsDoneOrMemory (end_of result) }
    ensures usage { (AreNames words.now → ⊥) → IsUsageOrMemory (end_of result) }
{
    run_findings::<FileCheck, S, K, E>(alloc, words, source, out, errs)
}
