//! From a listing to its tree. The nodes are made in preorder, with room for their children, so that they lie in memory in
//! the order in which a walk comes to them.
ghost use Rattle.std.specs.Prelude.{◌≡◌, ◌+◌, ◌<◌, ◌≤◌, ◌∷◌, ◌++◌, drop, length, map, IfOk, IfSome, OnOk, None};
ghost use Rattle.tree_json.specs.Lines.{listing, node_lines};
ghost use Rattle.tree_json.specs.Listing.{line, Continues, IsLessDeep, IsListing};

use crate::row::Row;
use semantic_tree::node::Node;
use std::alloc::{AllocError, Global};
use std::slice::Iter;

/// The tree whose nodes are these rows, in preorder.
pub(crate) fn tree_of(alloc: Global, rows: &[Row<'_>]) -> Result<Node, AllocError>
    requires { IsListing (map line rows.now) }
    ensures { IfOk result (λ root. listing root ≡ map line rows.now) }
{
    let counts = child_counts(alloc, rows)?;
    let mut place = 1;
    node_of(alloc, &rows[0], rows, &mut counts.iter(), &mut place)
}

/// How many children each row has. Only room is made by these numbers, so no contract speaks of them.
fn child_counts(alloc: Global, rows: &[Row<'_>]) -> Result<Vec<u32>, AllocError> {
    let mut counts: Vec<u32> = Vec::with_capacity(alloc, rows.len())?;
    let mut path: Vec<usize> = Vec::new(alloc);
    for (place, row) in rows.iter().enumerate() {
        path.truncate(row.depth as usize);
        if let Some(parent) = path.last()
            && let Some(count) = counts.get_mut(*parent)
        {
            *count = count.saturating_add(1);
        }
        path.push(place)?;
        counts.push(0)?;
    }
    Ok(counts)
}

/// The node of a row, with all below it, which the rows from the position `place` on list; it is then behind these.
fn node_of(
    alloc: Global,
    row: &Row<'_>,
    rows: &[Row<'_>],
    counts: &mut Iter<'_, u32>,
    place: &mut usize,
) -> Result<Node, AllocError>
    requires { Continues (row.now.depth + 1) (map line (drop place.old rows.now)) }
    ensures lines { IfOk result
        (λ node. node_lines row.now.depth row.now.role node ++ map line (drop place.new rows.now)
        ≡ line row.now ∷ map line (drop place.old rows.now)) }
    ensures rest { OnOk result (Continues (row.now.depth + 1)
        (map line (drop place.new rows.now))) }
    ensures end { OnOk result (IsLessDeep (row.now.depth + 1)
        (map line (drop place.new rows.now))) }
    ensures forward { OnOk result (place.old ≤ place.new) }
{
    let room = counts.next().copied().unwrap_or(0) as usize;
    let mut node = Node::with_room(alloc, row.kind, row.span, row.text, row.marks, room)?;
    while let Some(below) = deeper(rows, *place, row.depth) {
        *place += 1;
        let child = node_of(alloc, below, rows, counts, place)?;
        let Ok(()) = node.push(below.role, child) else {
            return Err(AllocError);
        };
    }
    Ok(node)
}

/// The row at a position, if there is one and it is deeper than this.
fn deeper<'r, 'a>(rows: &'r [Row<'a>], place: usize, depth: u32) -> Option<&'r Row<'a>>
    ensures some { IfSome result (λ row. (depth < row.now.depth) × (place < length rows.now)
        × (map line (drop place rows.now) ≡ line row.now ∷ map line (drop (place + 1) rows.now))) }
    ensures none { result ≡ None → IsLessDeep (depth + 1) (map line (drop place rows.now)) }
{
    if place < rows.len() && rows[place].depth > depth {
        Some(&rows[place])
    } else {
        None
    }
}
