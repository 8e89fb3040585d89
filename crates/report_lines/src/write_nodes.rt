//! Writes the lines on nodes.
ghost use Rattle.std.specs.Prelude.{◌<◌, length};
ghost use Rattle.node_store.specs.Seen.{seen};
ghost use Rattle.report_ends.specs.Streams.{WritesLines};
ghost use Rattle.report_lines.specs.CountLines.{node_line_by, node_lines};
ghost use Rattle.report_lines.specs.Rows.{IsRow};

use crate::count_lines::make_node_line;
use crate::line::Line;
use node_store::{AstNode, AstNodes};
use report_ends::{ReportError, Sink};
use semantic_syntax::NodeId;

fn write_node<K: Sink>(
    line: &mut Line,
    nodes: &AstNodes<'_>,
    id: NodeId,
    node: &AstNode<'_>,
    out: &mut K,
) -> Result<(), ReportError>
    requires { id < length nodes.now.nodes }
    ensures { WritesLines K.held K.faults K.Offered IsRow out.old out.new
        (node_line_by nodes.now.parents (id, seen node.now)) result }
{
    let parent = nodes.parent_id(id);
    let made = make_node_line(line, id, node.kind().ty(), parent, node.scope_id());
    line.offer_made(made, out)
}

/// Writes the lines of the nodes, in the order of their ids.
pub fn write_nodes<K: Sink>(
    line: &mut Line,
    nodes: &AstNodes<'_>,
    out: &mut K,
) -> Result<(), ReportError>
    ensures { WritesLines K.held K.faults K.Offered IsRow out.old out.new
        (node_lines nodes.now) result }
{
    for (id, node) in nodes.iter_enumerated() {
        write_node(line, nodes, id, node, out)?;
    }
    Ok(())
}
