//! From rows, comments and texts to their JSON values.
ghost use Rattle.std.specs.Prelude.{◌≡◌, map, filter, IfOk, Some};
ghost use Rattle.std.specs.Str.{chars};
ghost use Rattle.serde_json.specs.View.{view as data_of};
ghost use Rattle.serde_json.specs.Data.{array};
ghost use Rattle.semantic_kinds.specs.MarkSets.{has_mark};
ghost use Rattle.tree_json.specs.Listing.{line};
ghost use Rattle.tree_json.specs.Views.{characters, places_view, AreSpelled};
ghost use Rattle.tree_json.specs.Written.{mark_data, marks_items, line_data, comment_data, comment_kind_name, text_data, Each, IsReadAgain, IsCommentAgain};

use crate::places::{TextPlaces, spell, text_value};
use crate::row::Row;
use semantic_kinds::mark::Mark;
use semantic_kinds::marks::Marks;
use semantic_tree::comment::{Comment, CommentKind};
use serde_json::Value;
use std::alloc::{AllocError, Global};

/// The values of all rows.
pub(crate) fn row_values(
    alloc: Global,
    places: TextPlaces<'_, '_>,
    rows: &[Row<'_>],
) -> Result<Vec<Value>, AllocError>
    requires { AreSpelled places }
    ensures values { IfOk result (λ values. map data_of values.items
        ≡ map (line_data (places_view places.entry)) (map line rows.now)) }
    ensures again { IfOk result
        (λ values. Each (IsReadAgain (places_view places.entry)) (map line rows.now)) }
{
    let mut values = Vec::with_capacity(alloc, rows.len())?;
    for row in rows {
        values.push(row_value(alloc, places, row)?)?;
    }
    Ok(values)
}

#[tactic(auto, using(crate::proofs::Again::line_again))]
fn row_value(alloc: Global, places: TextPlaces<'_, '_>, row: &Row<'_>) -> Result<Value, AllocError>
    requires { AreSpelled places }
    ensures value { IfOk result
        (λ v. data_of v ≡ line_data (places_view places.entry) (line row.now)) }
    ensures again { IfOk result (λ v. IsReadAgain (places_view places.entry) (line row.now)) }
{
    let _ranges = (row.depth, row.span.start, row.span.end);
    spell(row.text);
    let value = plain_row_value(alloc, places, row)?;
    Ok(value)
}

#[tactic(auto, unfolding(crate::specs::Written::line_data))]
fn plain_row_value(
    alloc: Global,
    places: TextPlaces<'_, '_>,
    row: &Row<'_>,
) -> Result<Value, AllocError>
    requires { AreSpelled places }
    ensures { IfOk result (λ v. data_of v ≡ line_data (places_view places.entry) (line row.now)) }
{
    let marks = marks_value(alloc, row.marks)?;
    let role = Value::try_from_str(alloc, row.role.name())?;
    let kind = Value::try_from_str(alloc, row.kind.name())?;
    let text = text_value(alloc, places, row.text)?;
    let values = vec![in alloc;
        Value::from(row.depth),
        role,
        kind,
        Value::from(row.span.start),
        Value::from(row.span.end),
        text,
        marks,
    ]?;
    Ok(Value::Array(values))
}

fn marks_value(alloc: Global, marks: Marks) -> Result<Value, AllocError>
    ensures { IfOk result (λ v. data_of v ≡ array (marks_items marks)) }
{
    let names = names_of(alloc, marks, &Mark::ALL)?;
    Ok(Value::Array(names))
}

/// The names of those marks of a list that are in a set.
fn names_of(alloc: Global, marks: Marks, list: &[Mark]) -> Result<Vec<Value>, AllocError>
    ensures { IfOk result (λ names. map data_of names.items
        ≡ map mark_data (filter (has_mark marks) list.now)) }
{
    let mut names = Vec::new(alloc);
    for mark in list {
        if marks.has(*mark) {
            names.push(Value::try_from_str(alloc, mark.name())?)?;
        }
    }
    Ok(names)
}

/// The values of all comments.
pub(crate) fn comment_values(alloc: Global, comments: &[Comment]) -> Result<Vec<Value>, AllocError>
    ensures values { IfOk result
        (λ values. map data_of values.items ≡ map comment_data comments.now) }
    ensures again { IfOk result (λ values. Each IsCommentAgain comments.now) }
{
    let mut values = Vec::with_capacity(alloc, comments.len())?;
    for comment in comments {
        values.push(comment_value(alloc, *comment)?)?;
    }
    Ok(values)
}

#[tactic(auto, using(crate::proofs::Again::comment_again), unfolding(crate::specs::Written::comment_data))]
fn comment_value(alloc: Global, comment: Comment) -> Result<Value, AllocError>
    ensures value { IfOk result (λ v. data_of v ≡ comment_data comment) }
    ensures again { IfOk result (λ v. IsCommentAgain comment) }
{
    let kind = Value::try_from_str(alloc, comment_kind_name(comment.kind))?;
    let values = vec![in alloc;
        Value::from(comment.span.start),
        Value::from(comment.span.end),
        kind,
    ]?;
    Ok(Value::Array(values))
}

fn comment_kind_name(kind: CommentKind) -> &'static str
    ensures { result.now ≡ comment_kind_name kind }
{
    match kind {
        CommentKind::Line => "line",
        CommentKind::Block => "block",
    }
}

/// The values of all texts.
pub(crate) fn text_values(alloc: Global, texts: &[&str]) -> Result<Vec<Value>, AllocError>
    ensures { IfOk result (λ values. map data_of values.items
        ≡ map text_data (map characters texts.now)) }
{
    let mut values = Vec::with_capacity(alloc, texts.len())?;
    for text in texts {
        spell(text);
        values.push(Value::try_from_str(alloc, text)?)?;
    }
    Ok(values)
}
