//! The top object: six members, or seven in the format with a list of texts.
ghost use Rattle.std.specs.Prelude.{◌≡◌, ◌^◌, option_map};
ghost use Rattle.serde_json.specs.View.{view as data_of, items_view};
ghost use Rattle.tree_json.specs.Views.{characters, top_view};
ghost use Rattle.tree_json.specs.Top.{goal_named, goal_name, lang_named, lang_name, text_at, word_at, list_at, number_at, goal_at, lang_at, source_type_at, has_members, texts_at, parts_of, top_of_data};

use semantic_syntax::source_type::{Goal, Lang, SourceType};
use serde_json::Value;

/// The members of the top object, as they stand in it.
#[derive(Drop)]
pub(crate) struct Top<'a> {
    pub source: &'a str,
    pub source_type: SourceType,
    pub comments: &'a [Value],
    /// The list of texts, in the format that has one.
    pub texts: Option<&'a [Value]>,
    pub rows: &'a [Value],
}

const GOALS: [Goal; 3] = [Goal::Script, Goal::Module, Goal::CommonJs];

const LANGS: [Lang; 5] = [Lang::Js, Lang::Jsx, Lang::Ts, Lang::Tsx, Lang::Dts];

/// The name of a goal in JSON.
pub(crate) fn goal_name(goal: Goal) -> &'static str
    ensures { result.now ≡ goal_name goal }
{
    match goal {
        Goal::Script => "script",
        Goal::Module => "module",
        Goal::CommonJs => "commonjs",
    }
}

#[tactic(auto, unfolding(crate::specs::Top::goal_named))]
pub(crate) fn goal_named(text: &str) -> Option<Goal>
    ensures { result ≡ goal_named text.now }
{
    GOALS.iter().copied().find(|goal| goal_name(*goal) == text)
}

/// The name of a language in JSON.
pub(crate) fn lang_name(lang: Lang) -> &'static str
    ensures { result.now ≡ lang_name lang }
{
    match lang {
        Lang::Js => "js",
        Lang::Jsx => "jsx",
        Lang::Ts => "ts",
        Lang::Tsx => "tsx",
        Lang::Dts => "dts",
    }
}

#[tactic(auto, unfolding(crate::specs::Top::lang_named))]
pub(crate) fn lang_named(text: &str) -> Option<Lang>
    ensures { result ≡ lang_named text.now }
{
    LANGS.iter().copied().find(|lang| lang_name(*lang) == text)
}

/// The members of the top object, if it has the form.
#[tactic(auto, unfolding(crate::specs::Top::top_of_data))]
pub(crate) fn top_of(value: &Value) -> Option<Top<'_>>
    ensures { option_map top_view result ≡ top_of_data (data_of value.now) }
{
    let texts = texts_at(value)?;
    Some(Top {
        source: text_at(value, "source")?,
        source_type: source_type_at(value)?,
        comments: list_at(value, "comments")?,
        texts,
        rows: list_at(value, "rows")?,
    })
}

/// The list of texts, if the format has one; none where format and members do not agree.
#[tactic(auto, unfolding(crate::specs::Top::texts_at))]
fn texts_at(value: &Value) -> Option<Option<&[Value]>>
    ensures { option_map (λ o. option_map (λ s. items_view s.now) o) result
        ≡ texts_at (data_of value.now) }
{
    let format = number_at(value, "format")?;
    if format == 1 && has_members(value, 6) {
        return Some(None);
    }
    if format == 2 && has_members(value, 7) {
        return Some(Some(list_at(value, "texts")?));
    }
    None
}

#[tactic(auto, using(crate::proofs::Members::members_len_view), unfolding(crate::specs::Top::has_members))]
fn has_members(value: &Value, number: usize) -> bool
    ensures { result ≡ has_members number (data_of value.now) }
{
    match value.as_object() {
        Some(members) => members.len() == number,
        None => false,
    }
}

#[tactic(auto, unfolding(crate::specs::Top::source_type_at))]
fn source_type_at(value: &Value) -> Option<SourceType>
    ensures { result ≡ source_type_at (data_of value.now) }
{
    Some(SourceType {
        goal: goal_at(value)?,
        lang: lang_at(value)?,
    })
}

#[tactic(auto, unfolding(crate::specs::Top::goal_at))]
fn goal_at(value: &Value) -> Option<Goal>
    ensures { result ≡ goal_at (data_of value.now) }
{
    goal_named(word_at(value, "goal")?)
}

#[tactic(auto, unfolding(crate::specs::Top::lang_at))]
fn lang_at(value: &Value) -> Option<Lang>
    ensures { result ≡ lang_at (data_of value.now) }
{
    lang_named(word_at(value, "lang")?)
}

#[tactic(auto, unfolding(crate::specs::Top::text_at, crate::specs::Form::text_in))]
fn text_at<'a>(value: &'a Value, name: &str) -> Option<&'a str>
    ensures { option_map characters result ≡ text_at name.now (data_of value.now) }
{
    value.get(name)?.as_str()
}

#[tactic(auto, unfolding(crate::specs::Top::word_at))]
fn word_at<'a>(value: &'a Value, name: &str) -> Option<&'a str>
    ensures { option_map (λ s. s.now) result ≡ word_at name.now (data_of value.now) }
{
    value.get(name)?.as_str()
}

#[tactic(auto, unfolding(crate::specs::Top::list_at))]
fn list_at<'a>(value: &'a Value, name: &str) -> Option<&'a [Value]>
    ensures { option_map (λ s. items_view s.now) result ≡ list_at name.now (data_of value.now) }
{
    Some(value.get(name)?.as_array()?.as_slice())
}

#[tactic(auto, unfolding(crate::specs::Top::number_at))]
fn number_at(value: &Value, name: &str) -> Option<u64>
    ensures { result ≡ number_at name.now (data_of value.now) }
{
    value.get(name)?.as_u64()
}
