//! Writes the lines on symbols, their declarations and their uses.
ghost use Rattle.std.specs.Prelude.{◌<◌, length, ℕ};
ghost use Rattle.std.specs.List.{flat_map};
ghost use Rattle.semantic_syntax.specs.Reading.{symbol_of};
ghost use Rattle.report_ends.specs.Streams.{WritesLines, numbered_text};
ghost use Rattle.report_lines.specs.TableLines.{redeclaration_line, declaration_lines, symbol_lines, pure_line, all_symbol_lines};
ghost use Rattle.report_lines.specs.Rows.{IsRow};

use crate::line::Line;
use crate::table_lines::{
    make_pure_line, make_redeclaration_line, make_symbol_line, make_uses_line,
};
use report_ends::{ReportError, Sink};
use scoping::Scoping;
use semantic_syntax::{Redeclaration, SymbolId};
use std::collections::BTreeSet;

fn write_redeclarations<K: Sink>(
    line: &mut Line,
    symbol: SymbolId,
    entries: &[Redeclaration],
    out: &mut K,
) -> Result<(), ReportError>
    ensures { WritesLines K.held K.faults K.Offered IsRow out.old out.new
        (flat_map (redeclaration_line symbol) entries.now) result }
{
    for entry in entries {
        let made = make_redeclaration_line(line, symbol, entry);
        line.offer_made(made, out)?;
    }
    Ok(())
}

fn write_declarations<K: Sink>(
    line: &mut Line,
    scoping: &Scoping,
    symbol: SymbolId,
    out: &mut K,
) -> Result<(), ReportError>
    requires { symbol < length scoping.now.symbols }
    ensures { WritesLines K.held K.faults K.Offered IsRow out.old out.new
        (declaration_lines symbol (symbol_of scoping.now symbol)) result }
{
    let made = make_symbol_line(
        line,
        symbol,
        scoping.symbol_name(symbol),
        scoping.symbol_scope_id(symbol),
        scoping.symbol_declaration(symbol),
        scoping.symbol_span(symbol),
        scoping.symbol_flags(symbol),
    );
    line.offer_made(made, out)?;
    write_redeclarations(line, symbol, scoping.symbol_redeclarations(symbol), out)
}

fn write_symbol<K: Sink>(
    line: &mut Line,
    scoping: &Scoping,
    symbol: SymbolId,
    out: &mut K,
) -> Result<(), ReportError>
    requires { symbol < length scoping.now.symbols }
    ensures { WritesLines K.held K.faults K.Offered IsRow out.old out.new
        (symbol_lines scoping.now symbol (symbol_of scoping.now symbol)) result }
{
    write_declarations(line, scoping, symbol, out)?;
    let made = make_uses_line(line, symbol, scoping.get_resolved_reference_ids(symbol));
    line.offer_made(made, out)
}

// Writes the lines of the symbols, each with its declarations and its uses.
fn write_symbols<K: Sink>(
    line: &mut Line,
    scoping: &Scoping,
    out: &mut K,
) -> Result<(), ReportError>
    ensures { WritesLines K.held K.faults K.Offered IsRow out.old out.new
        (numbered_text (symbol_lines scoping.now) 0 scoping.now.symbols) result }
{
    let count = scoping.symbols_len() as u32;
    for number in 0..count {
        write_symbol(line, scoping, SymbolId::new(number), out)?;
    }
    Ok(())
}

// Writes the lines of the symbols without side effects.
fn write_pures<K: Sink>(
    line: &mut Line,
    symbols: &BTreeSet<SymbolId>,
    out: &mut K,
) -> Result<(), ReportError>
    ensures { WritesLines K.held K.faults K.Offered IsRow out.old out.new
        (flat_map pure_line symbols.now.keys) result }
{
    for symbol in symbols {
        let made = make_pure_line(line, *symbol);
        line.offer_made(made, out)?;
    }
    Ok(())
}

/// Writes the lines of the symbols, and those of the symbols without side effects.
pub fn write_all_symbols<K: Sink>(
    line: &mut Line,
    scoping: &Scoping,
    out: &mut K,
) -> Result<(), ReportError>
    ensures { WritesLines K.held K.faults K.Offered IsRow out.old out.new
        (all_symbol_lines scoping.now) result }
{
    write_symbols(line, scoping, out)?;
    write_pures(line, scoping.no_side_effects(), out)
}
