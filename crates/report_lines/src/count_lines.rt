//! The lines on nodes, labels and counts.
ghost use Rattle.std.specs.Prelude.{◌≡◌, ◌++◌, OnOk};
ghost use Rattle.report_lines.specs.CountLines.{node_line, label_line, counts_text, table_counts, stats_line, made_line, free_count};

use crate::line::Line;
use scoping::Scoping;
use semantic_kinds::AstType;
use semantic_syntax::{NodeId, ScopeId};
use std::alloc::AllocError;

/// Makes the line of a node. The root is its own parent.
#[tactic(auto, unfolding(crate::specs::CountLines::node_line))]
pub fn make_node_line(
    line: &mut Line,
    node: NodeId,
    kind: AstType,
    parent: NodeId,
    scope: ScopeId,
) -> Result<(), AllocError>
    ensures { OnOk result (line.new ≡ node_line node kind parent scope) }
{
    line.begin();
    line.push_labelled("node ", node.index())?;
    line.push(" ")?;
    line.push(kind.name())?;
    line.push_labelled(" parent ", parent.index())?;
    line.push_labelled(" scope ", scope.index())?;
    line.push("\n")
}

/// Makes the line of a label that no jump names, by the node of its statement.
#[tactic(auto, unfolding(crate::specs::CountLines::label_line))]
pub fn make_label_line(line: &mut Line, node: NodeId) -> Result<(), AllocError>
    ensures { OnOk result (line.new ≡ label_line node) }
{
    line.begin();
    line.push_labelled("label ", node.index())?;
    line.push("\n")
}

// Adds how many nodes, scopes, symbols and references there are.
#[tactic(auto, unfolding(crate::specs::CountLines::counts_text))]
fn push_numbers(
    line: &mut Line,
    nodes: usize,
    scopes: usize,
    symbols: usize,
    references: usize,
) -> Result<(), AllocError>
    ensures { OnOk result (line.new ≡ line.old ++ counts_text nodes scopes symbols references) }
{
    line.push_labelled(" nodes ", nodes)?;
    line.push_labelled(" scopes ", scopes)?;
    line.push_labelled(" symbols ", symbols)?;
    line.push_labelled(" references ", references)
}

// Adds how many nodes there are, and what stands in the tables.
fn push_counts(line: &mut Line, nodes: u32, scoping: &Scoping) -> Result<(), AllocError>
    ensures { OnOk result (line.new ≡ line.old ++ table_counts nodes scoping.now) }
{
    push_numbers(
        line,
        nodes as usize,
        scoping.scopes_len(),
        scoping.symbols_len(),
        scoping.references_len(),
    )
}

/// Makes the line of counts, over so many nodes.
#[tactic(auto, unfolding(crate::specs::CountLines::stats_line))]
pub fn make_stats_line(line: &mut Line, nodes: u32, scoping: &Scoping) -> Result<(), AllocError>
    ensures { OnOk result (line.new ≡ stats_line nodes scoping.now) }
{
    line.begin();
    line.push("stats")?;
    push_counts(line, nodes, scoping)?;
    line.push("\n")
}

/// Makes the summary of a script that was made and analysed, over so many nodes, of which so many references are free.
#[tactic(auto, unfolding(crate::specs::CountLines::made_line))]
pub fn make_made_line(
    line: &mut Line,
    nodes: u32,
    scoping: &Scoping,
    free: usize,
) -> Result<(), AllocError>
    requires { free ≡ free_count scoping.now.references }
    ensures { OnOk result (line.new ≡ made_line nodes scoping.now) }
{
    line.begin();
    line.push("made")?;
    push_counts(line, nodes, scoping)?;
    line.push_labelled(" free ", free)?;
    line.push("\n")
}
