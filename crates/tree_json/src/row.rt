//! One row of a listing, from its JSON value.
ghost use Rattle.std.specs.Prelude.{◌≡◌, option_map, map, slice_get};
ghost use Rattle.serde_json.specs.View.{view as data_of};
ghost use Rattle.tree_json.specs.Listing.{line};
ghost use Rattle.tree_json.specs.Views.{texts_view, characters};
ghost use Rattle.tree_json.specs.Form.{whole_number, text_of_data, marks_of_data, role_of_data, kind_of_data, span_of_data, line_of_data};

use semantic_kinds::kind::AstType;
use semantic_kinds::mark::Mark;
use semantic_kinds::marks::Marks;
use semantic_kinds::role::Role;
use semantic_syntax::Span;
use serde_json::Value;

/// A node without its children, as one row of a listing.
#[derive(Clone, Copy)]
pub(crate) struct Row<'a> {
    /// How deep the node stands; the root stands at 0.
    pub depth: u32,
    pub role: Role,
    pub kind: AstType,
    pub span: Span,
    pub text: &'a str,
    pub marks: Marks,
}

/// Where the texts of rows stand.
#[derive(Clone, Copy)]
pub(crate) enum RowTexts<'a, 'n> {
    /// In the rows.
    InRows,
    /// In this list, of which a row tells the position.
    InList(&'n [&'a str]),
}

/// The row that a value gives, if it has the form of a row.
pub(crate) fn row_of<'a>(texts: RowTexts<'a, '_>, value: &'a Value) -> Option<Row<'a>>
    ensures { option_map line result ≡ line_of_data (texts_view texts.entry) (data_of value.now) }
{
    let items = value.as_array()?;
    let [depth, role, kind, start, end, text, marks] = items.as_slice() else {
        return None;
    };
    Some(Row {
        depth: number_of(depth)?,
        role: role_of(role)?,
        kind: kind_of(kind)?,
        span: span_of(start, end)?,
        text: text_of(texts, text)?,
        marks: marks_of(marks)?,
    })
}

#[tactic(auto, unfolding(crate::specs::Form::text_in))]
fn text_of<'a>(texts: RowTexts<'a, '_>, value: &'a Value) -> Option<&'a str>
    ensures { option_map characters result
        ≡ text_of_data (texts_view texts.entry) (data_of value.now) }
{
    match texts {
        RowTexts::InRows => value.as_str(),
        RowTexts::InList(list) => text_at(list, number_of(value)? as usize),
    }
}

fn text_at<'a>(list: &[&'a str], place: usize) -> Option<&'a str>
    ensures { option_map characters result ≡ slice_get (map characters list.now) place }
{
    if place < list.len() {
        Some(list[place])
    } else {
        None
    }
}

#[tactic(auto, unfolding(crate::specs::Form::role_of_data))]
fn role_of(value: &Value) -> Option<Role>
    ensures { result ≡ role_of_data (data_of value.now) }
{
    Role::from_name(value.as_str()?)
}

#[tactic(auto, unfolding(crate::specs::Form::kind_of_data))]
fn kind_of(value: &Value) -> Option<AstType>
    ensures { result ≡ kind_of_data (data_of value.now) }
{
    AstType::from_name(value.as_str()?)
}

/// The span between two whole numbers.
#[tactic(auto, unfolding(crate::specs::Form::span_of_data))]
pub(crate) fn span_of(start: &Value, end: &Value) -> Option<Span>
    ensures { result ≡ span_of_data (data_of start.now) (data_of end.now) }
{
    Some(Span {
        start: number_of(start)?,
        end: number_of(end)?,
    })
}

#[tactic(auto, unfolding(crate::specs::Form::whole_number))]
fn number_of(value: &Value) -> Option<u32>
    ensures { result ≡ whole_number (data_of value.now) }
{
    u32::try_from(value.as_u64()?).ok()
}

#[tactic(auto, unfolding(crate::specs::Form::marks_of_data))]
fn marks_of(value: &Value) -> Option<Marks>
    ensures { result ≡ marks_of_data (data_of value.now) }
{
    let mut marks = Marks::empty();
    for item in value.as_array()? {
        let mark = Mark::from_name(item.as_str()?)?;
        if marks.has(mark) {
            return None;
        }
        marks = marks.with(mark);
    }
    Some(marks)
}
