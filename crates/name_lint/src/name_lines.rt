//! Writes the lines on unused symbols and on undeclared references.
ghost use Rattle.std.specs.Prelude.{◌≡◌, ◌<◌, ℕ, length, map, All, OnOk};
ghost use Rattle.std.specs.List.{flat_map};
ghost use Rattle.name_lint.specs.Gathered.{text_of, span_of};
ghost use Rattle.report_ends.specs.Streams.{WritesLines};
ghost use Rattle.name_lint.specs.Lines.{name_line, unused_line, undeclared_line, name_lines, IsNameLine};

use crate::found_names::NameReport;
use report_ends::{ReportError, Sink};
use report_lines::Line;
use scoping::Scoping;
use semantic_syntax::{ReferenceId, Span, SymbolId};
use semantic_tree::AstKind;
use std::alloc::{AllocError, Global};

/// Makes the line on a name.
#[tactic(auto, unfolding(crate::specs::Lines::name_line))]
fn make_name_line(
    line: &mut Line,
    what: &str,
    number: usize,
    name: &str,
    span: Span,
) -> Result<(), AllocError>
    ensures { OnOk result (line.new ≡ name_line what.now number name.now span) }
{
    line.begin();
    line.push_labelled(what, number)?;
    line.push_quoted(" ", name)?;
    line.push_span(" ", span)?;
    line.push("\n")
}

fn write_symbol<K: Sink>(
    line: &mut Line,
    scoping: &Scoping,
    symbol: SymbolId,
    out: &mut K,
) -> Result<(), ReportError>
    requires { symbol < length scoping.now.symbols }
    ensures { WritesLines K.held K.faults K.Offered IsNameLine out.old out.new
        (unused_line scoping.now symbol) result }
{
    let made = make_name_line(
        line,
        "unused ",
        symbol.index(),
        scoping.symbol_name(symbol),
        scoping.symbol_span(symbol),
    );
    line.offer_made(made, out)
}

/// Writes the lines of unused symbols.
fn write_unused<K: Sink>(
    line: &mut Line,
    scoping: &Scoping,
    symbols: &[SymbolId],
    out: &mut K,
) -> Result<(), ReportError>
    requires { All (λ y. y < length scoping.now.symbols) symbols.now }
    ensures { WritesLines K.held K.faults K.Offered IsNameLine out.old out.new
        (flat_map (unused_line scoping.now) symbols.now) result }
{
    for symbol in symbols {
        write_symbol(line, scoping, *symbol, out)?;
    }
    Ok(())
}

fn write_reference<K: Sink>(
    line: &mut Line,
    nodes: &[AstKind<'_>],
    reference: ReferenceId,
    out: &mut K,
) -> Result<(), ReportError>
    requires { reference < length nodes.now }
    ensures { WritesLines K.held K.faults K.Offered IsNameLine out.old out.new
        (undeclared_line (map text_of nodes.now) (map span_of nodes.now) reference) result }
{
    let node = nodes[reference.index()];
    let made = make_name_line(
        line,
        "undeclared ",
        reference.index(),
        node.text().as_str(),
        node.span(),
    );
    line.offer_made(made, out)
}

/// Writes the lines of undeclared references; `nodes` are the nodes of all references.
fn write_undeclared<K: Sink>(
    line: &mut Line,
    nodes: &[AstKind<'_>],
    references: &[ReferenceId],
    out: &mut K,
) -> Result<(), ReportError>
    requires { All (λ r. r < length nodes.now) references.now }
    ensures { WritesLines K.held K.faults K.Offered IsNameLine out.old out.new
        (flat_map (undeclared_line (map text_of nodes.now) (map span_of nodes.now)) references.now)
        result }
{
    for reference in references {
        write_reference(line, nodes, *reference, out)?;
    }
    Ok(())
}

/// Writes the lines of the unused symbols and of the undeclared references; `nodes` are the nodes of all references.
/// Each line is offered as one piece, and what a call leaves of it is offered again. It answers `Write` where a call on
/// the sink failed or took nothing, and `Memory`. The sink has taken a prefix of the lines then.
pub fn write_names<K: Sink>(
    alloc: Global,
    scoping: &Scoping,
    nodes: &[AstKind<'_>],
    report: &NameReport,
    out: &mut K,
) -> Result<(), ReportError>
    requires unused { All (λ y. y < length scoping.now.symbols) report.now.unused }
    requires undeclared { All (λ r. r < length nodes.now) report.now.undeclared }
    ensures { WritesLines K.held K.faults K.Offered IsNameLine out.old out.new
        (name_lines scoping.now (map text_of nodes.now)
        (map span_of nodes.now) report.now.unused report.now.undeclared) result }
{
    let mut line = Line::new(alloc);
    write_unused(&mut line, scoping, report.unused.as_slice(), out)?;
    write_undeclared(&mut line, nodes, report.undeclared.as_slice(), out)
}
