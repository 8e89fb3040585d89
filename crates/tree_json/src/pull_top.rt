//! The top object in the form that the writer gives it, straight from a reader of JSON, with no value of the whole text.
ghost use Rattle.std.specs.Prelude.{◌≡◌, ◌∷◌, [], codes, IfSome, OnSome, IfOk};
ghost use Rattle.json.specs.Token as token;
ghost use Rattle.tree_json.specs.Pulled.{IsType, IsTop};

use crate::pull::{close_text, open_object, take_key, take_number, take_string};
use crate::pull_row::{take_comments, take_rows};
use crate::row::Row;
use crate::top::{goal_named, lang_named};
use json::Reader;
use semantic_syntax::SourceType;
use semantic_tree::comment::Comment;
use std::alloc::{AllocError, Global};

/// What a top object in the first format says, its rows as a list.
#[derive(Drop)]
pub(crate) struct Pulled<'a> {
    pub source: &'a str,
    pub source_type: SourceType,
    pub comments: Vec<Comment>,
    pub rows: Vec<Row<'a>>,
}

/// The whole text, if it is a top object in the first format whose keys stand in order. Room is made for so many rows.
pub(crate) fn take_top<'a>(
    alloc: Global,
    reader: &mut Reader<'a>,
    room: usize,
) -> Result<Option<Pulled<'a>>, AllocError>
    ensures { IfOk result (λ o. IfSome o (λ top. IsTop reader.old top)) }
{
    if open_member(reader).is_none() {
        return Ok(None);
    }
    let Some(comments) = take_comments(alloc, reader)? else {
        return Ok(None);
    };
    let Some(source_type) = take_type(reader) else {
        return Ok(None);
    };
    let Some(rows) = take_rows(alloc, reader, room)? else {
        return Ok(None);
    };
    let Some(source) = take_source(reader) else {
        return Ok(None);
    };
    Ok(Some(Pulled {
        source,
        source_type,
        comments,
        rows,
    }))
}

/// The brace, and the key of the comments.
fn open_member(reader: &mut Reader<'_>) -> Option<()>
    ensures { OnSome result (reader.old
        ≡ token.begin_object ∷ token.key (codes "comments") ∷ reader.new) }
{
    open_object(reader)?;
    take_key(reader, "comments")
}

/// The string that is the member of this key.
fn take_word<'a>(reader: &mut Reader<'a>, name: &str) -> Option<&'a str>
    ensures { IfSome result (λ s. reader.old
        ≡ token.key name.now ∷ token.string s.now ∷ reader.new) }
{
    take_key(reader, name)?;
    take_string(reader)
}

/// The members behind the comments: the format, which is 1, the goal and the language, and the key of the rows.
fn take_type(reader: &mut Reader<'_>) -> Option<SourceType>
    ensures { IfSome result (λ t. IsType reader.old t reader.new) }
{
    take_key(reader, "format")?;
    if take_number(reader)? != 1 {
        return None;
    }
    let goal = goal_named(take_word(reader, "goal")?)?;
    let lang = lang_named(take_word(reader, "lang")?)?;
    take_key(reader, "rows")?;
    Some(SourceType { goal, lang })
}

/// The last member, which is the source.
fn take_source<'a>(reader: &mut Reader<'a>) -> Option<&'a str>
    ensures { IfSome result (λ s. reader.old
        ≡ token.key (codes "source") ∷ token.string s.now ∷ token.end_object ∷ []) }
{
    let source = take_word(reader, "source")?;
    close_text(reader)?;
    Some(source)
}
