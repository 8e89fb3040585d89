//! Writes the lines on tangled names.
ghost use Rattle.std.specs.Prelude.{◌≡◌, ◌++◌, OnOk};
ghost use Rattle.std.specs.List.{flat_map};
ghost use Rattle.std.specs.Str.{encode_utf8_all};
ghost use Rattle.semantic_syntax.specs.Reading.{symbol_of};
ghost use Rattle.report_ends.specs.Streams.{WritesLines};
ghost use Rattle.tangled_names.specs.Found.{tangle_seen};
ghost use Rattle.tangle_lint.specs.Lines.{reason_name, reason_text, reasons_text, name_line, tangle_line, seen_line, tangle_lines, IsTangleLine};

use report_ends::{ReportError, Sink};
use report_lines::Line;
use scoping::Scoping;
use semantic_syntax::SymbolId;
use std::alloc::{AllocError, Global};
use tangled_names::{Reason, TangledName, TangledNames};

/// The word for a reason.
fn reason_name(reason: Reason) -> &'static str
    ensures { result.now ≡ reason_name reason }
{
    match reason {
        Reason::BlockFunction => "BlockFunction",
        Reason::CatchVariable => "CatchVariable",
        Reason::Arguments => "Arguments",
        Reason::With => "With",
        Reason::Eval => "Eval",
        Reason::FreeNamesake => "FreeNamesake",
        Reason::MergedMember => "MergedMember",
        Reason::NamespaceNamesake => "NamespaceNamesake",
        Reason::InferredName => "InferredName",
        Reason::HiddenParameter => "HiddenParameter",
        Reason::IndexParameter => "IndexParameter",
        Reason::SloppyFunction => "SloppyFunction",
        Reason::ExportedType => "ExportedType",
        Reason::TypedVariable => "TypedVariable",
        Reason::TypedFunctionName => "TypedFunctionName",
    }
}

/// Adds the word for a reason, behind a space.
fn push_reason(line: &mut Line, reason: Reason) -> Result<(), AllocError>
    ensures { OnOk result (line.new ≡ line.old ++ reason_text reason) }
{
    line.push(" ")?;
    line.push(reason_name(reason))
}

/// Adds the words for the reasons, each behind a space.
fn push_reasons(line: &mut Line, reasons: &[Reason]) -> Result<(), AllocError>
    ensures { OnOk result (line.new ≡ line.old ++ reasons_text reasons.now) }
{
    for reason in reasons {
        push_reason(line, *reason)?;
    }
    Ok(())
}

/// The name of the symbol; empty where the tables don't hold it.
#[tactic(auto, using(crate::proofs::Beyond::names))]
fn name_of(scoping: &Scoping, symbol: SymbolId) -> &str
    ensures { result.now ≡ encode_utf8_all (symbol_of scoping.now symbol).name }
{
    if symbol.index() < scoping.symbols_len() {
        scoping.symbol_name(symbol)
    } else {
        ""
    }
}

/// Makes the line on a tangled name.
#[tactic(auto, unfolding(crate::specs::Lines::name_line))]
fn make_line(
    line: &mut Line,
    symbol: usize,
    name: &str,
    reasons: &[Reason],
) -> Result<(), AllocError>
    ensures { OnOk result (line.new ≡ name_line symbol name.now reasons.now) }
{
    line.begin();
    line.push_labelled("tangled ", symbol)?;
    line.push_quoted(" ", name)?;
    push_reasons(line, reasons)?;
    line.push("\n")
}

fn write_tangle<K: Sink>(
    line: &mut Line,
    scoping: &Scoping,
    name: &TangledName,
    out: &mut K,
) -> Result<(), ReportError>
    ensures { WritesLines K.held K.faults K.Offered IsTangleLine out.old out.new
        (tangle_line scoping.now (tangle_seen name.now)) result }
{
    let text = name_of(scoping, name.symbol);
    let made = make_line(line, name.symbol.index(), text, name.reasons.as_slice());
    line.offer_made(made, out)
}

/// Writes the lines of the names.
fn write_each<K: Sink>(
    line: &mut Line,
    scoping: &Scoping,
    names: &[TangledName],
    out: &mut K,
) -> Result<(), ReportError>
    ensures { WritesLines K.held K.faults K.Offered IsTangleLine out.old out.new
        (flat_map (seen_line scoping.now) names.now) result }
{
    for name in names {
        write_tangle(line, scoping, name, out)?;
    }
    Ok(())
}

/// Writes the lines of tangled names. Each line is offered as one piece, and what a call leaves of it is offered again. It
/// answers `Write` where a call on the sink failed or took nothing, and `Memory`. The sink has taken a prefix of the lines
/// then.
pub fn write_tangles<K: Sink>(
    alloc: Global,
    scoping: &Scoping,
    names: &TangledNames,
    out: &mut K,
) -> Result<(), ReportError>
    ensures { WritesLines K.held K.faults K.Offered IsTangleLine out.old out.new
        (tangle_lines scoping.now names.now) result }
{
    let mut line = Line::new(alloc);
    write_each(&mut line, scoping, names.as_slice(), out)
}
