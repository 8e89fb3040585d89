//! Writes the lines on diagnostics.
ghost use Rattle.std.specs.List.{flat_map};
ghost use Rattle.report_ends.specs.Streams.{WritesLines};
ghost use Rattle.report_lines.specs.DiagnosticLine.{diagnostic_line};
ghost use Rattle.report_lines.specs.Rows.{IsRow};

use crate::diagnostic_line::make_diagnostic_line;
use crate::line::Line;
use report_ends::{ReportError, Sink};
use semantic_diagnostics::Diagnostics;

/// Writes the lines of the diagnostics.
pub fn write_diagnostics<K: Sink>(
    line: &mut Line,
    diagnostics: &Diagnostics,
    out: &mut K,
) -> Result<(), ReportError>
    ensures { WritesLines K.held K.faults K.Offered IsRow out.old out.new
        (flat_map diagnostic_line diagnostics.now) result }
{
    for diagnostic in diagnostics.iter() {
        let made = make_diagnostic_line(line, diagnostic);
        line.offer_made(made, out)?;
    }
    Ok(())
}
