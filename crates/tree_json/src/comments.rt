//! The comments of the top object, and its list of texts.
ghost use Rattle.std.specs.Prelude.{◌≡◌, map, ok_or, option_map};
ghost use Rattle.serde_json.specs.View.{view as data_of, items_view};
ghost use Rattle.semantic_tree.specs.declared.error.TreeError.TheVariants.{Shape};
ghost use Rattle.tree_json.specs.Form.{text_in};
ghost use Rattle.tree_json.specs.Views.{characters};
ghost use Rattle.tree_json.specs.Comments.{comment_kind_named, comment_kind_of_data, comment_of_data, all_items};
ghost use Rattle.tree_json.specs.Outcome.{Gives};

use crate::row::span_of;
use semantic_tree::comment::{Comment, CommentKind};
use semantic_tree::error::TreeError;
use serde_json::Value;
use std::alloc::Global;

/// The comments, if each value has the form of one.
pub(crate) fn comments_of(alloc: Global, values: &[Value]) -> Result<Vec<Comment>, TreeError>
    ensures { Gives (λ comments. comments.items) result
        (ok_or (all_items comment_of_data (items_view values.now)) (Shape None)) }
{
    let mut comments = Vec::with_capacity(alloc, values.len())?;
    for value in values {
        let comment = comment_of(value).ok_or(TreeError::Shape(None))?;
        comments.push(comment)?;
    }
    Ok(comments)
}

/// The texts, if each value is one.
pub(crate) fn texts_of(alloc: Global, values: &[Value]) -> Result<Vec<&str>, TreeError>
    ensures { Gives (λ texts. map characters texts.items) result
        (ok_or (all_items text_in (items_view values.now)) (Shape None)) }
{
    let mut texts = Vec::with_capacity(alloc, values.len())?;
    for value in values {
        let text = text_in(value).ok_or(TreeError::Shape(None))?;
        texts.push(text)?;
    }
    Ok(texts)
}

#[tactic(auto, unfolding(crate::specs::Form::text_in))]
fn text_in(value: &Value) -> Option<&str>
    ensures { option_map characters result ≡ text_in (data_of value.now) }
{
    value.as_str()
}

#[tactic(auto, using(crate::proofs::CommentForm::comment_of_items_length), unfolding(crate::specs::Comments::comment_of_data))]
fn comment_of(value: &Value) -> Option<Comment>
    ensures { result ≡ comment_of_data (data_of value.now) }
{
    let items = value.as_array()?;
    let [start, end, kind] = items.as_slice() else {
        return None;
    };
    Some(Comment {
        span: span_of(start, end)?,
        kind: comment_kind(kind)?,
    })
}

#[tactic(auto, unfolding(crate::specs::Comments::comment_kind_of_data))]
fn comment_kind(value: &Value) -> Option<CommentKind>
    ensures { result ≡ comment_kind_of_data (data_of value.now) }
{
    comment_kind_named(value.as_str()?)
}

/// The kind of comment that a name in JSON tells.
pub(crate) fn comment_kind_named(text: &str) -> Option<CommentKind>
    ensures { result ≡ comment_kind_named text.now }
{
    match text {
        "line" => Some(CommentKind::Line),
        "block" => Some(CommentKind::Block),
        _ => None,
    }
}
