//! Rows and comments, straight from a reader of JSON.
ghost use Rattle.std.specs.Prelude.{◌≡◌, ◌∷◌, map, IfSome, IfOk};
ghost use Rattle.tree_json.specs.Comments.{comment_of_data, all_items};
ghost use Rattle.tree_json.specs.Form.{in_rows, line_of_data, marks_of_data, marks_from};
ghost use Rattle.semantic_kinds.specs.MarkSets.{no_marks};
ghost use Rattle.tree_json.specs.Listing.{line};
ghost use Rattle.tree_json.specs.Pulled.{IsSpan, IsHead, Pulls, PullsItems, of_list};

use crate::comments::comment_kind_named;
use crate::pull::{close_array, open_array, take_number, take_string};
use crate::row::Row;
use json::Reader;
use semantic_kinds::kind::AstType;
use semantic_kinds::mark::Mark;
use semantic_kinds::marks::Marks;
use semantic_kinds::role::Role;
use semantic_syntax::Span;
use semantic_tree::comment::Comment;
use std::alloc::{AllocError, Global};

/// The next value, if it has the form of a row that tells its own text.
#[inline(always)]
fn take_row<'a>(reader: &mut Reader<'a>) -> Option<Row<'a>>
    ensures { IfSome result (λ row.
        Pulls (line_of_data in_rows) 2 reader.old (line row) reader.new) }
{
    open_array(reader)?;
    let head = take_head(reader)?;
    let marks = take_marks(reader)?;
    close_array(reader)?;
    Some(Row { marks, ..head })
}

/// What stands in a row before its marks, which are not read.
#[inline(always)]
fn take_head<'a>(reader: &mut Reader<'a>) -> Option<Row<'a>>
    ensures { IfSome result (λ row. IsHead reader.old row reader.new) }
{
    let depth = take_number(reader)?;
    let role = Role::from_name(take_string(reader)?)?;
    let kind = AstType::from_name(take_string(reader)?)?;
    let span = take_span(reader)?;
    let text = take_string(reader)?;
    Some(Row {
        depth,
        role,
        kind,
        span,
        text,
        marks: Marks::empty(),
    })
}

/// The next two values, if they are whole numbers.
#[inline(always)]
fn take_span(reader: &mut Reader<'_>) -> Option<Span>
    ensures { IfSome result (λ span. IsSpan reader.old span reader.new) }
{
    let start = take_number(reader)?;
    let end = take_number(reader)?;
    Some(Span { start, end })
}

/// The next value, if it is a list of marks, none twice.
#[inline(always)]
fn take_marks(reader: &mut Reader<'_>) -> Option<Marks>
    ensures { IfSome result (λ marks. Pulls marks_of_data 1 reader.old marks reader.new) }
{
    open_array(reader)?;
    rest_of_marks(reader)
}

/// Marks, none twice, up to the bracket that closes their list.
#[inline(always)]
fn rest_of_marks(reader: &mut Reader<'_>) -> Option<Marks>
    ensures { IfSome result (λ marks.
        PullsItems (marks_from no_marks) 0 reader.old marks reader.new) }
{
    let mut marks = Marks::empty();
    'marks: while !reader.take_end_array() {
        let mark = Mark::from_name(take_string(reader)?)?;
        if marks.has(mark) {
            return None;
        }
        marks = marks.with(mark);
    }
    Some(marks)
}

/// The next value, if it is a list of rows. Room is made for so many.
pub(crate) fn take_rows<'a>(
    alloc: Global,
    reader: &mut Reader<'a>,
    room: usize,
) -> Result<Option<Vec<Row<'a>>>, AllocError>
    ensures { IfOk result (λ o. IfSome o
        (λ rows. Pulls (of_list (all_items (line_of_data in_rows))) 3 reader.old
        (map line rows.items) reader.new)) }
{
    if open_array(reader).is_none() {
        return Ok(None);
    }
    rest_of_rows(alloc, reader, room)
}

/// Rows up to the bracket that closes their list.
fn rest_of_rows<'a>(
    alloc: Global,
    reader: &mut Reader<'a>,
    room: usize,
) -> Result<Option<Vec<Row<'a>>>, AllocError>
    ensures { IfOk result (λ o. IfSome o
        (λ rows. PullsItems (all_items (line_of_data in_rows)) 2 reader.old
        (map line rows.items) reader.new)) }
{
    let mut rows = Vec::with_capacity(alloc, room)?;
    'rows: while !reader.take_end_array() {
        let Some(row) = take_row(reader) else {
            return Ok(None);
        };
        rows.push(row)?;
    }
    Ok(Some(rows))
}

/// The next value, if it has the form of a comment.
fn take_comment(reader: &mut Reader<'_>) -> Option<Comment>
    ensures { IfSome result (λ comment. Pulls comment_of_data 1 reader.old comment reader.new) }
{
    open_array(reader)?;
    let span = take_span(reader)?;
    let kind = comment_kind_named(take_string(reader)?)?;
    close_array(reader)?;
    Some(Comment { span, kind })
}

/// The next value, if it is a list of comments.
pub(crate) fn take_comments(
    alloc: Global,
    reader: &mut Reader<'_>,
) -> Result<Option<Vec<Comment>>, AllocError>
    ensures { IfOk result (λ o. IfSome o
        (λ comments. Pulls (of_list (all_items comment_of_data)) 2 reader.old comments.items
        reader.new)) }
{
    if open_array(reader).is_none() {
        return Ok(None);
    }
    rest_of_comments(alloc, reader)
}

/// Comments up to the bracket that closes their list.
fn rest_of_comments(
    alloc: Global,
    reader: &mut Reader<'_>,
) -> Result<Option<Vec<Comment>>, AllocError>
    ensures { IfOk result (λ o. IfSome o
        (λ comments. PullsItems
        (all_items comment_of_data) 1 reader.old comments.items reader.new)) }
{
    let mut comments = Vec::new(alloc);
    'comments: while !reader.take_end_array() {
        let Some(comment) = take_comment(reader) else {
            return Ok(None);
        };
        comments.push(comment)?;
    }
    Ok(Some(comments))
}
