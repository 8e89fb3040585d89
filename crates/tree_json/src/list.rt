//! From a tree to its rows.
ghost use Rattle.std.specs.Prelude.{◌≡◌, ◌+◌, ◌<◌, ◌^◌, ◌++◌, map, OnOk};
ghost use Rattle.semantic_tree.specs.Children.{node_count};
ghost use Rattle.tree_json.specs.Lines.{line_of, node_lines};
ghost use Rattle.tree_json.specs.Listing.{line};

use crate::row::Row;
use semantic_kinds::role::Role;
use semantic_tree::node::Node;
use std::alloc::AllocError;

/// Puts the rows of a node, and of all below it, behind the others.
#[tactic(auto, using(semantic_tree::specs::Falls::below))]
pub(crate) fn push_rows<'a>(
    rows: &mut Vec<Row<'a>>,
    node: &'a Node,
    depth: u32,
    role: Role,
) -> Result<(), AllocError>
    requires counted { depth + node_count node.now < 2 ^ 32 }
    ensures { OnOk result (map line rows.new.items
        ≡ map line rows.old.items ++ node_lines depth role node.now) }
{
    rows.push(row_of(node, depth, role))?;
    for (role, child) in node.children.as_slice() {
        push_rows(rows, child, depth + 1, *role)?;
    }
    Ok(())
}

/// The row of a node.
fn row_of(node: &Node, depth: u32, role: Role) -> Row<'_>
    ensures { line result ≡ line_of depth role node.now }
{
    Row {
        depth,
        role,
        kind: node.kind,
        span: node.span,
        text: node.text.as_str(),
        marks: node.marks,
    }
}
