//! Writes the lines on references.
ghost use Rattle.std.specs.Prelude.{◌≡◌, ◌<◌, ℕ, [], length, map, unwrap_or};
ghost use Rattle.std.specs.List.{flat_map};
ghost use Rattle.std.specs.Str.{encode_utf8_all};
ghost use Rattle.semantic_syntax.specs.Reading.{reference_of};
ghost use Rattle.report_ends.specs.Streams.{WritesLines, numbered_text};
ghost use Rattle.report_lines.specs.TableLines.{reference_name, reference_line, free_line, all_reference_lines};
ghost use Rattle.report_lines.specs.FreeNames.{name_shown, free_names};
ghost use Rattle.report_lines.specs.Rows.{IsRow};

use crate::free_names::free_names;
use crate::line::Line;
use crate::table_lines::{make_free_line, make_reference_line};
use report_ends::{ReportError, Sink};
use scoping::Scoping;
use semantic_syntax::{Ident, ReferenceId};
use std::alloc::Global;

// The text of a name, empty for none.
fn text_of<'s>(name: Option<Ident<'s>>) -> &'s str
    ensures { result.now ≡ encode_utf8_all (unwrap_or (name_shown name.entry) []) }
{
    match name {
        None => "",
        Some(name) => name.as_str(),
    }
}

// The name of a reference: its symbol's, or that of the free list that holds it.
fn reference_name<'s>(
    scoping: &'s Scoping,
    names: &[Option<Ident<'s>>],
    reference: ReferenceId,
) -> &'s str
    requires reference { reference < length scoping.now.references }
    requires names { map name_shown names.now ≡ free_names scoping.now }
    ensures { result.now ≡ encode_utf8_all
        (reference_name scoping.now reference (reference_of scoping.now reference)) }
{
    match scoping.get_reference(reference).symbol_id() {
        None => text_of(names[reference.index()]),
        Some(symbol) if symbol.index() < scoping.symbols_len() => scoping.symbol_name(symbol),
        Some(_) => "",
    }
}

fn write_reference<K: Sink>(
    line: &mut Line,
    scoping: &Scoping,
    names: &[Option<Ident<'_>>],
    reference: ReferenceId,
    out: &mut K,
) -> Result<(), ReportError>
    requires reference { reference < length scoping.now.references }
    requires names { map name_shown names.now ≡ free_names scoping.now }
    ensures { WritesLines K.held K.faults K.Offered IsRow out.old out.new
        (reference_line scoping.now reference (reference_of scoping.now reference)) result }
{
    let name = reference_name(scoping, names, reference);
    let made = make_reference_line(
        line,
        reference.index(),
        name,
        scoping.get_reference(reference),
    );
    line.offer_made(made, out)
}

fn write_named<K: Sink>(
    line: &mut Line,
    scoping: &Scoping,
    names: &[Option<Ident<'_>>],
    out: &mut K,
) -> Result<(), ReportError>
    requires names { map name_shown names.now ≡ free_names scoping.now }
    ensures { WritesLines K.held K.faults K.Offered IsRow out.old out.new
        (numbered_text (reference_line scoping.now) 0 scoping.now.references) result }
{
    let count = scoping.references_len() as u32;
    for number in 0..count {
        write_reference(line, scoping, names, ReferenceId::new(number), out)?;
    }
    Ok(())
}

// Writes the lines of the free references, by name.
fn write_frees<K: Sink>(line: &mut Line, scoping: &Scoping, out: &mut K) -> Result<(), ReportError>
    ensures { WritesLines K.held K.faults K.Offered IsRow out.old out.new
        (flat_map free_line scoping.now.free) result }
{
    for (name, references) in scoping.root_unresolved_references().iter() {
        let made = make_free_line(line, name.as_str(), references);
        line.offer_made(made, out)?;
    }
    Ok(())
}

/// Writes the lines of the references, and those of the free ones by name.
pub fn write_all_references<K: Sink>(
    alloc: Global,
    line: &mut Line,
    scoping: &Scoping,
    out: &mut K,
) -> Result<(), ReportError>
    ensures { WritesLines K.held K.faults K.Offered IsRow out.old out.new
        (all_reference_lines scoping.now) result }
{
    let names = free_names(alloc, scoping)?;
    write_named(line, scoping, &names, out)?;
    write_frees(line, scoping, out)
}
