//! The texts of rows, each once, in order of first use.
ghost use Rattle.std.specs.Prelude.{◌≡◌, map, IfOk, OnOk, []};
ghost use Rattle.std.specs.Str.{chars};
ghost use Rattle.serde_json.specs.View.{view as data_of};
ghost use Rattle.tree_json.specs.Listing.{line};
ghost use Rattle.tree_json.specs.Views.{characters, places_view, IsSpelled, AreSpelled};
ghost use Rattle.tree_json.specs.Written.{texts_from, and_text, told_text, place_of, Each};

use crate::row::Row;
use indexmap::IndexSet;
use serde_json::Value;
use std::alloc::{AllocError, Global};

/// How rows tell their texts.
#[derive(Clone, Copy)]
pub(crate) enum TextPlaces<'s, 'a> {
    /// By the texts themselves.
    InPlace,
    /// By their positions in this set.
    InSet(&'s IndexSet<&'a str>),
}

/// A text is the UTF-8 form of its characters.
#[tactic(auto, using(crate::proofs::Spelled::is_spelled))]
pub(crate) fn spell(text: &str)
    ensures { IsSpelled text.entry }
{}

/// The texts of the rows, each once, in order of first use.
pub(crate) fn texts_of<'a>(alloc: Global, rows: &[Row<'a>]) -> Result<IndexSet<&'a str>, AllocError>
    ensures texts { IfOk result
        (λ texts. map characters texts.keys ≡ texts_from [] (map line rows.now)) }
    ensures spelled { IfOk result (λ texts. Each IsSpelled texts.keys) }
{
    let mut texts = IndexSet::new(alloc);
    for row in rows {
        add_text(&mut texts, row.text)?;
    }
    Ok(texts)
}

/// The texts, and this one too.
#[tactic(auto, using(crate::proofs::Spelled::insert_spelled, crate::proofs::Spelled::insert_characters))]
fn add_text<'a>(texts: &mut IndexSet<&'a str>, text: &'a str) -> Result<(), AllocError>
    requires { Each IsSpelled texts.old.keys }
    ensures texts { OnOk result (map characters texts.new.keys
        ≡ and_text (map characters texts.old.keys) (chars text.now)) }
    ensures spelled { OnOk result (Each IsSpelled texts.new.keys) }
{
    spell(text);
    texts.insert(text)?;
    Ok(())
}

/// What a row says of its text.
#[tactic(auto, using(crate::proofs::Spelled::position_spelled))]
pub(crate) fn text_value(
    alloc: Global,
    places: TextPlaces<'_, '_>,
    text: &str,
) -> Result<Value, AllocError>
    requires { AreSpelled places }
    ensures { IfOk result (λ v. data_of v ≡ told_text (places_view places.entry) (chars text.now)) }
{
    spell(text);
    match places {
        TextPlaces::InPlace => Value::try_from_str(alloc, text),
        TextPlaces::InSet(texts) => Ok(Value::from(place_of(texts, text))),
    }
}

/// The position of a text in a set, or 0 if it is not there.
#[tactic(auto, using(crate::proofs::Spelled::position_spelled))]
fn place_of(texts: &IndexSet<&str>, text: &str) -> usize
    requires { Each IsSpelled texts.now.keys }
    ensures { result ≡ place_of (chars text.now) (map characters texts.now.keys) }
{
    spell(text);
    texts.get_index_of(&text).unwrap_or(0)
}
