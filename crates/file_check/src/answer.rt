//! What is answered about a program: its report with early errors, and then the lines of the lint of names.
ghost use Rattle.std.specs.Prelude.{◌≡◌, ◌<◌, ◌++◌, true, length, map, All};
ghost use Rattle.semantic_model.specs.Label.{unused_labels};
ghost use Rattle.semantic_model.specs.NodeTable.{node_tables};
ghost use Rattle.semantic_model.specs.Step.{steps};
ghost use Rattle.promise.specs.Analysis.{IsAnalysis};
ghost use Rattle.semantic.specs.Shown.{entries};
ghost use Rattle.program_ends.specs.Answering.{WritesAll, GivesAnswer};
ghost use Rattle.program_ends.specs.FindingEnds.{end_of};
ghost use Rattle.report_answers.specs.Codes.{status_for};
ghost use Rattle.report_answers.specs.Found.{found_in};
ghost use Rattle.report_answers.specs.Report.{answer_text};
ghost use Rattle.name_lint.specs.Codes as lint;
ghost use Rattle.name_lint.specs.Gathered.{text_of, span_of};
ghost use Rattle.name_lint.specs.Lines.{name_lines};
ghost use Rattle.file_check.specs.Asked.{check_request};
ghost use Rattle.file_check.specs.Codes.{status_of_both};
ghost use Rattle.file_check.specs.Meaning.{Answers};

use crate::CheckStatus;
use name_lint::{NameReport, TreePass, finish_names, names_by};
use report_answers::{Request, finish_answer};
use report_ends::{ReportError, Sink};
use semantic::{SemanticBuilder, drop_analysis};
use semantic_queries::SemanticBuilderReturn;
use semantic_tree::{AstKind, Program};
use std::alloc::Global;

/// What the report is asked: early errors, too.
fn check_request() -> Request
    ensures { result ≡ check_request }
{
    Request {
        check: true,
        nodes: false,
        classes: false,
        stats: false,
        make: None,
    }
}

/// The status of both answers: the lint's, unless the report has diagnostics.
fn status_of_both(reported: CheckStatus, named: CheckStatus) -> CheckStatus
    ensures { result ≡ status_of_both reported named }
{
    match reported {
        CheckStatus::Found => CheckStatus::Found,
        _ => named,
    }
}

/// Writes the report and the lines on names, and gives the status for them; `nodes` are the nodes of all references.
fn finish_both<K: Sink>(
    alloc: Global,
    ret: &SemanticBuilderReturn<'_>,
    nodes: &[AstKind<'_>],
    names: &NameReport,
    out: &mut K,
) -> Result<CheckStatus, ReportError>
    requires unused { All (λ y. y < length ret.now.semantic.scoping.symbols) names.now.unused }
    requires undeclared { All (λ r. r < length nodes.now) names.now.undeclared }
    ensures { WritesAll K.held K.faults out.old out.new
        (answer_text check_request (found_in ret.now)
        ++ name_lines ret.now.semantic.scoping (map text_of nodes.now)
        (map span_of nodes.now) names.now.unused names.now.undeclared)
        (status_of_both (status_for ret.now.diagnostics)
        (lint.status_for names.now.unused names.now.undeclared)) result }
{
    let reported = finish_answer(alloc, check_request(), ret, out)?;
    let named = finish_names(alloc, ret.semantic.scoping(), nodes, names, out)?;
    Ok(status_of_both(reported, named))
}

/// Finds the names of a program of which this is the analysis, and writes both answers. All is found before anything is
/// written, so that what a sink has taken where memory was wanting is a part of an answer.
fn answer_by<K: Sink>(
    alloc: Global,
    words: &[String],
    program: &Program,
    ret: &SemanticBuilderReturn<'_>,
    out: &mut K,
) -> Result<CheckStatus, ReportError>
    requires analysis { IsAnalysis true program.now ret.now.semantic.scoping
        ret.now.diagnostics }
    requires nodes { ret.now.semantic.tables.symbols
        ≡ entries (node_tables (steps program.now)).symbols }
    requires labels { ret.now.semantic.unused_labels.items ≡ unused_labels program.now.root }
    ensures { GivesAnswer end_of (Answers words.now) K.held K.faults out.old out.new program.now
        result }
{
    let scoping = ret.semantic.scoping();
    let tables = ret.semantic.tables();
    let pass = TreePass::over(alloc, program, tables)?;
    let names = names_by(alloc, program, scoping, tables, &pass, words)?;
    finish_both(alloc, ret, pass.references(), &names, out)
}

/// Analyses a program once, and writes both answers.
pub fn answer<K: Sink>(
    alloc: Global,
    words: &[String],
    program: &Program,
    out: &mut K,
) -> Result<CheckStatus, ReportError>
    ensures { GivesAnswer end_of (Answers words.now) K.held K.faults out.old out.new program.now
        result }
{
    let analysis = SemanticBuilder::new()
        .with_check_syntax_error(true)
        .build(alloc, program)?;
    let answered = answer_by(alloc, words, program, &analysis, out);
    drop_analysis(analysis);
    answered
}
