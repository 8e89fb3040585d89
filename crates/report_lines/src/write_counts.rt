//! Writes the lines on labels and counts.
ghost use Rattle.std.specs.Prelude.{◌≡◌};
ghost use Rattle.std.specs.List.{flat_map};
ghost use Rattle.report_ends.specs.Streams.{WritesLines};
ghost use Rattle.report_lines.specs.CountLines.{label_line, stats_line, made_line, free_count};
ghost use Rattle.report_lines.specs.Rows.{IsRow};

use crate::count_lines::{make_label_line, make_made_line, make_stats_line};
use crate::line::Line;
use report_ends::{ReportError, Sink};
use scoping::Scoping;
use semantic_syntax::{NodeId, ReferenceId};

/// Writes the lines of labels that no jump names, by the nodes of their statements.
pub fn write_labels<K: Sink>(
    line: &mut Line,
    labels: &[NodeId],
    out: &mut K,
) -> Result<(), ReportError>
    ensures { WritesLines K.held K.faults K.Offered IsRow out.old out.new
        (flat_map label_line labels.now) result }
{
    for label in labels {
        let made = make_label_line(line, *label);
        line.offer_made(made, out)?;
    }
    Ok(())
}

/// Writes the line of counts, over so many nodes.
pub fn write_stats<K: Sink>(
    line: &mut Line,
    nodes: u32,
    scoping: &Scoping,
    out: &mut K,
) -> Result<(), ReportError>
    ensures { WritesLines K.held K.faults K.Offered IsRow out.old out.new
        (stats_line nodes scoping.now) result }
{
    let made = make_stats_line(line, nodes, scoping);
    line.offer_made(made, out)
}

// How many references are free.
fn free_count(scoping: &Scoping) -> usize
    ensures { result ≡ free_count scoping.now.references }
{
    let mut free = 0;
    let count = scoping.references_len() as u32;
    for number in 0..count {
        let reference = scoping.get_reference(ReferenceId::new(number));
        if reference.symbol_id().is_none() {
            free += 1;
        }
    }
    free
}

/// Writes the summary of a script that was made and analysed, over so many nodes.
pub fn write_made<K: Sink>(
    line: &mut Line,
    nodes: u32,
    scoping: &Scoping,
    out: &mut K,
) -> Result<(), ReportError>
    ensures { WritesLines K.held K.faults K.Offered IsRow out.old out.new
        (made_line nodes scoping.now) result }
{
    let made = make_made_line(line, nodes, scoping, free_count(scoping));
    line.offer_made(made, out)
}
