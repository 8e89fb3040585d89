//! All rows, and the tree that they list.
ghost use Rattle.std.specs.Prelude.{◌≡◌, ◌<◌, ◌-◌, ◌^◌, length, map, vec_len, IfOk, Ok, IsTrue};
ghost use Rattle.serde_json.specs.View.{items_view, view as data_of};
ghost use Rattle.tree_json.specs.Lines.{listing};
ghost use Rattle.tree_json.specs.Listing.{line, IsListing};
ghost use Rattle.tree_json.specs.Views.{texts_view};
ghost use Rattle.tree_json.specs.Outcome.{Gives};
ghost use Rattle.tree_json.specs.ShallowLines.{shallow_lines};
ghost use Rattle.tree_json.specs.Reading.{follows, line_at, lines_from, shallow_from, listing_of, result_map};

use crate::build::tree_of;
use crate::row::{Row, RowTexts, row_of};
use semantic_kinds::role::Role;
use semantic_syntax::NodeId;
use semantic_tree::error::TreeError;
use semantic_tree::fault::DEPTH_LIMIT;
use semantic_tree::node::Node;
use serde_json::Value;
use std::alloc::Global;

/// The tree that the rows list, or the first fault.
#[tactic(auto, unfolding(crate::specs::Reading::listing_of))]
pub(crate) fn tree_of_values(
    alloc: Global,
    texts: RowTexts<'_, '_>,
    values: &[Value],
) -> Result<Node, TreeError>
    requires some { 0 < length values.now }
    requires few { length values.now < 2 ^ 32 - 1 }
    ensures { Gives listing result (listing_of (texts_view texts.entry) (items_view values.now)) }
{
    let rows = rows_of(alloc, texts, values)?;
    tree_of_rows(alloc, &rows)
}

/// The tree that the rows list, or the least row that is too deep.
fn tree_of_rows(alloc: Global, rows: &[Row<'_>]) -> Result<Node, TreeError>
    requires listed { IsListing (map line rows.now) }
    requires few { length rows.now < 2 ^ 32 - 1 }
    ensures { Gives listing result (shallow_lines (map line rows.now)) }
{
    check_depths(rows)?;
    Ok(tree_of(alloc, rows)?)
}

/// The rows, or the least value that is no row in its place.
fn rows_of<'a>(
    alloc: Global,
    texts: RowTexts<'a, '_>,
    values: &'a [Value],
) -> Result<Vec<Row<'a>>, TreeError>
    requires { length values.now < 2 ^ 32 - 1 }
    ensures read { Gives (λ rows. map line rows.items) result
        (lines_from (texts_view texts.entry) 0 0 (items_view values.now)) }
    ensures count { IfOk result (λ rows. vec_len rows ≡ length values.now) }
{
    let mut rows = Vec::with_capacity(alloc, values.len())?;
    let mut opened = 0;
    for (index, value) in values.iter().enumerate() {
        let row = row_at(texts, value, opened, index as u32)?;
        opened = row.depth as u64 + 1;
        rows.push(row)?;
    }
    Ok(rows)
}

#[tactic(auto, unfolding(crate::specs::Reading::line_at))]
fn row_at<'a>(
    texts: RowTexts<'a, '_>,
    value: &'a Value,
    opened: u64,
    index: u32,
) -> Result<Row<'a>, TreeError>
    requires { index < 2 ^ 32 - 1 }
    ensures { result_map line result
        ≡ line_at (texts_view texts.entry) opened index (data_of value.now) }
{
    match row_of(texts, value) {
        Some(row) if is_next(&row, opened) => Ok(row),
        _ => Err(TreeError::Shape(Some(NodeId::new(index)))),
    }
}

/// Whether a row may stand where so many nodes are open.
#[tactic(auto, unfolding(crate::specs::Reading::follows))]
fn is_next(row: &Row<'_>, opened: u64) -> bool
    ensures { result ≡ follows opened (line row.now) }
{
    if opened == 0 {
        row.depth == 0 && row.role == Role::Root
    } else {
        row.depth > 0 && row.depth as u64 <= opened
    }
}

/// Refuses the least row that is too deep. `Program::new` refuses such a tree too, whoever made it; but `tree_of` goes down
/// the rows by recursion, so a hostile input has to be refused before there is a tree.
fn check_depths(rows: &[Row<'_>]) -> Result<(), TreeError>
    requires { length rows.now < 2 ^ 32 - 1 }
    ensures { result ≡ shallow_from 0 (map line rows.now) }
{
    for (index, row) in rows.iter().enumerate() {
        if row.depth > DEPTH_LIMIT {
            return Err(TreeError::TooDeep(NodeId::new(index as u32)));
        }
    }
    Ok(())
}

/// Whether these rows list a tree that is not too deep, asked before the tree is made for the same reason.
pub(crate) fn are_listed(rows: &[Row<'_>]) -> bool
    requires { 0 < length rows.now }
    ensures { IsTrue result → IsListing (map line rows.now)
        × (shallow_from 0 (map line rows.now) ≡ Ok tt) }
{
    let mut opened = 0;
    for row in rows {
        if !is_next(row, opened) || row.depth > DEPTH_LIMIT {
            return false;
        }
        opened = row.depth as u64 + 1;
    }
    true
}
