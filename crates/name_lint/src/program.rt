//! The program, over any source and any sinks.
ghost use Rattle.std.specs.Prelude.{◌≡◌, ◌<◌, ◌↔◌, length, map, All, IsTrue};
ghost use Rattle.semantic_model.specs.NodeTable.{node_tables};
ghost use Rattle.semantic_model.specs.Step.{steps};
ghost use Rattle.semantic_model.specs.TablesOf.{tables_of};
ghost use Rattle.semantic.specs.Shown.{entries};
ghost use Rattle.name_lint.specs.Gathered.{text_of, span_of};
ghost use Rattle.program_ends.specs.Answering.{WritesAll, GivesAnswer};
ghost use Rattle.program_ends.specs.Calls.{source_call, sink_call};
ghost use Rattle.program_ends.specs.Completeness.{IsClear, IsDoneOrMemory, IsUsageOrMemory};
ghost use Rattle.program_ends.specs.Faults.{FaultsEnd};
ghost use Rattle.program_ends.specs.FindingEnds.{end_of};
ghost use Rattle.program_ends.specs.Findings.{FindingMeans};
ghost use Rattle.name_lint.specs.Codes.{status_for};
ghost use Rattle.name_lint.specs.Lines.{name_lines};
ghost use Rattle.name_lint.specs.Meaning.{Answers};
ghost use Rattle.name_lint.specs.Telling.{usage_line};
ghost use Rattle.name_lint.specs.Words.{AreNames};

use crate::NamesStatus;
use crate::found_names::{NameReport, names_by};
use crate::name_lines::write_names;
use crate::tree_pass::TreePass;
use program_ends::{FindingProgram, run_findings};
use report_ends::{ReportError, Sink, Source};
use scoping::{NodeTables, Scoping};
use semantic::{SemanticBuilder, drop_analysis};
use semantic_tree::{AstKind, Program};
use std::alloc::Global;

/// Whether the word is a name: it isn't empty.
fn is_name(word: &str) -> bool
    ensures { IsTrue result ↔ (0 < length word.now) }
{
    !word.is_empty()
}

/// Whether the words are names: none is empty.
pub fn are_names(words: &[String]) -> bool
    ensures { IsTrue result ↔ AreNames words.now }
{
    words.iter().all(|word| is_name(word.as_str()))
}

/// The status for lines that are written.
fn status_for(report: &NameReport) -> NamesStatus
    ensures { result ≡ status_for report.now.unused report.now.undeclared }
{
    if report.unused.as_slice().is_empty() && report.undeclared.as_slice().is_empty() {
        NamesStatus::Done
    } else {
        NamesStatus::Found
    }
}

/// Writes the lines on what was found, and gives the status for them; `nodes` are the nodes of all references. It answers
/// `Write` where a call on the sink failed or took nothing, and `Memory`. The sink has taken a prefix of the lines then.
pub fn finish_names<K: Sink>(
    alloc: Global,
    scoping: &Scoping,
    nodes: &[AstKind<'_>],
    report: &NameReport,
    out: &mut K,
) -> Result<NamesStatus, ReportError>
    requires unused { All (λ y. y < length scoping.now.symbols) report.now.unused }
    requires undeclared { All (λ r. r < length nodes.now) report.now.undeclared }
    ensures { WritesAll K.held K.faults out.old out.new
        (name_lines scoping.now (map text_of nodes.now)
        (map span_of nodes.now) report.now.unused report.now.undeclared)
        (status_for report.now.unused report.now.undeclared) result }
{
    write_names(alloc, scoping, nodes, report, out)?;
    Ok(status_for(report))
}

/// Finds the names of a program with these tables, and writes their lines.
fn answer_by<K: Sink>(
    alloc: Global,
    words: &[String],
    program: &Program,
    scoping: &Scoping,
    tables: &NodeTables,
    out: &mut K,
) -> Result<NamesStatus, ReportError>
    requires tables { scoping.now ≡ tables_of program.now }
    requires nodes { tables.now.symbols ≡ entries (node_tables (steps program.now)).symbols }
    ensures { GivesAnswer end_of (Answers words.now) K.held K.faults out.old out.new program.now
        result }
{
    let pass = TreePass::over(alloc, program, tables)?;
    let report = names_by(alloc, program, scoping, tables, &pass, words)?;
    finish_names(alloc, scoping, pass.references(), &report, out)
}

/// Analyses a program, and writes the lines on its names.
fn answer<K: Sink>(
    alloc: Global,
    words: &[String],
    program: &Program,
    out: &mut K,
) -> Result<NamesStatus, ReportError>
    ensures { GivesAnswer end_of (Answers words.now) K.held K.faults out.old out.new program.now
        result }
{
    let analysis = SemanticBuilder::new().build(alloc, program)?;
    let semantic = &analysis.semantic;
    let answered = answer_by(
        alloc,
        words,
        program,
        semantic.scoping(),
        semantic.tables(),
        out,
    );
    drop_analysis(analysis);
    answered
}

/// The line on words that aren't names, or can't be had.
pub const USAGE: &str = "usage: name_lint [NAME ..]\n";

/// The lint as a program.
struct NameLint;

impl FindingProgram for NameLint {
    ghost use Rattle.std.proofs.Common.{ap, ◌∙◌};
    ghost use Rattle.program_ends.specs.Meaning.{is_answer};
    ghost use Rattle.name_lint.specs.Codes.{status_answers};
    ghost use Rattle.name_lint.specs.Known.{known_names};
    ghost use Rattle.name_lint.specs.Meaning.{Answers};
    ghost use Rattle.name_lint.specs.Telling.{usage_line};
    ghost use Rattle.name_lint.specs.Undeclared.{undeclared};
    ghost use Rattle.name_lint.specs.Words.{AreNames};

    ghost IsAsked = { AreNames };

    ghost usage_line = { usage_line };

    ghost Answers = { Answers };

    ghost ends_answer = { λ words end program text answers. ap is_answer answers.ends
        ∙ status_answers answers.unused (undeclared (known_names words) program) };

    fn usage() -> &'static str {
        USAGE
    }

    fn is_asked(words: &[String]) -> bool {
        are_names(words)
    }

    fn answer<K: Sink>(
        alloc: Global,
        words: &[String],
        program: &Program,
        out: &mut K,
    ) -> Result<NamesStatus, ReportError> {
        answer(alloc, words, program, out)
    }
}

/// Does all that the program does: it reads the whole input, which is a program's tree as JSON, and writes to `out` the
/// line `unused Y "name" A-B` for each symbol that nothing in use uses, and then `undeclared R "name" A-B` for each
/// reference to a name that is neither declared nor among the words, with the number, the name and the span in bytes.
/// `Done` is answered where there is none of either. Where it can't it tells why on `errs`, in one line. Where a word is
/// empty nothing is read.
pub fn run_names<S: Source, K: Sink, E: Sink>(
    alloc: Global,
    words: &[String],
    source: &mut S,
    out: &mut K,
    errs: &mut E,
) -> NamesStatus
    ensures means { FindingMeans (AreNames words.now) usage_line (Answers words.now)
        (source_call S.left S.faults source.old source.new)
        (sink_call K.held K.faults out.old out.new)
        (sink_call E.held E.faults errs.old errs.new) result }
    ensures failing { FaultsEnd (source_call S.left S.faults source.old source.new)
        (sink_call K.held K.faults out.old out.new) (end_of result) }
    ensures complete { AreNames words.now
        → IsClear (source_call S.left S.faults source.old source.new)
        (sink_call K.held K.faults out.old out.new) → IsDoneOrMemory (end_of result) }
    ensures usage { (AreNames words.now → ⊥) → IsUsageOrMemory (end_of result) }
{
    run_findings::<NameLint, S, K, E>(alloc, words, source, out, errs)
}
