//! Writes the lines on the tables.
ghost use Rattle.report_ends.specs.Streams.{WritesLines};
ghost use Rattle.report_lines.specs.TableLines.{table_lines};
ghost use Rattle.report_lines.specs.Rows.{IsRow};

use crate::line::Line;
use crate::write_references::write_all_references;
use crate::write_scopes::write_scopes;
use crate::write_symbols::write_all_symbols;
use report_ends::{ReportError, Sink};
use scoping::Scoping;
use std::alloc::Global;

/// Writes the lines of the tables: scopes with what they bind, symbols with their declarations and uses, symbols without
/// side effects, references, and free references by name.
pub fn write_tables<K: Sink>(
    alloc: Global,
    line: &mut Line,
    scoping: &Scoping,
    out: &mut K,
) -> Result<(), ReportError>
    ensures { WritesLines K.held K.faults K.Offered IsRow out.old out.new
        (table_lines scoping.now) result }
{
    write_scopes(line, scoping, out)?;
    write_all_symbols(line, scoping, out)?;
    write_all_references(alloc, line, scoping, out)
}
