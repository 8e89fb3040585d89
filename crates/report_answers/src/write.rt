//! Writes a report, or the summary of a script that was made.
ghost use Rattle.semantic_tree.specs.Children.{node_count};
ghost use Rattle.report_ends.specs.Streams.{WritesLines};
ghost use Rattle.report_lines.specs.ClassLines.{all_class_lines};
ghost use Rattle.report_lines.specs.CountLines.{node_lines, stats_line, made_line};
ghost use Rattle.report_lines.specs.Rows.{IsRow};
ghost use Rattle.report_answers.specs.Found.{found_in};
ghost use Rattle.report_answers.specs.Report.{where_asked, report_text};

use crate::options::Options;
use class_table::ClassTable;
use node_store::AstNodes;
use report_ends::{ReportError, Sink};
use report_lines::write_classes::write_classes;
use report_lines::write_diagnostics::write_diagnostics;
use report_lines::write_nodes::write_nodes;
use report_lines::write_tables::write_tables;
use report_lines::{Line, write_labels, write_made, write_stats};
use semantic_queries::{Semantic, SemanticBuilderReturn};
use std::alloc::Global;

/// Writes the lines of the nodes, where they are asked for.
fn write_asked_nodes<K: Sink>(
    line: &mut Line,
    asked: bool,
    nodes: &AstNodes<'_>,
    out: &mut K,
) -> Result<(), ReportError>
    ensures { WritesLines K.held K.faults K.Offered IsRow out.old out.new
        (where_asked asked (node_lines nodes.now)) result }
{
    if asked {
        write_nodes(line, nodes, out)
    } else {
        Ok(())
    }
}

/// Writes the lines of the classes, where they are asked for.
fn write_asked_classes<K: Sink>(
    line: &mut Line,
    asked: bool,
    classes: &ClassTable<'_>,
    out: &mut K,
) -> Result<(), ReportError>
    ensures { WritesLines K.held K.faults K.Offered IsRow out.old out.new
        (where_asked asked (all_class_lines classes.now)) result }
{
    if asked {
        write_classes(line, classes, out)
    } else {
        Ok(())
    }
}

/// Writes the line of the counts, where it is asked for.
fn write_asked_stats<K: Sink>(
    line: &mut Line,
    asked: bool,
    semantic: &Semantic<'_>,
    out: &mut K,
) -> Result<(), ReportError>
    ensures { WritesLines K.held K.faults K.Offered IsRow out.old out.new
        (where_asked asked (stats_line
        (node_count semantic.now.program.now.root) semantic.now.scoping)) result }
{
    if asked {
        write_stats(line, semantic.stats().nodes, semantic.scoping(), out)
    } else {
        Ok(())
    }
}

/// Writes the report of what was found. Each line is offered as one piece, and what a call leaves of it is offered
/// again. It answers `Write` where a call on the sink failed or took nothing, and `Memory`. The sink has taken a prefix
/// of the report then.
pub fn write_report<K: Sink>(
    alloc: Global,
    ret: &SemanticBuilderReturn<'_>,
    options: Options,
    out: &mut K,
) -> Result<(), ReportError>
    ensures { WritesLines K.held K.faults K.Offered IsRow out.old out.new
        (report_text options (found_in ret.now)) result }
{
    let mut line = Line::new(alloc);
    write_asked_nodes(&mut line, options.nodes, ret.semantic.nodes(), out)?;
    write_tables(alloc, &mut line, ret.semantic.scoping(), out)?;
    write_asked_classes(&mut line, options.classes, ret.semantic.classes(), out)?;
    write_labels(&mut line, ret.semantic.unused_labels(), out)?;
    write_asked_stats(&mut line, options.stats, &ret.semantic, out)?;
    write_diagnostics(&mut line, &ret.diagnostics, out)
}

/// Writes the summary of a script that was made and analysed, with the errors of `write_report`.
pub fn write_summary<K: Sink>(
    alloc: Global,
    ret: &SemanticBuilderReturn<'_>,
    out: &mut K,
) -> Result<(), ReportError>
    ensures { WritesLines K.held K.faults K.Offered IsRow out.old out.new
        (made_line (node_count ret.now.semantic.program.now.root) ret.now.semantic.scoping) result }
{
    let mut line = Line::new(alloc);
    let nodes = ret.semantic.stats().nodes;
    write_made(&mut line, nodes, ret.semantic.scoping(), out)
}
