//! From a program to its written forms.
ghost use Rattle.std.specs.Prelude.{◌≡◌, Ok, None, codes, map, IfOk, OnOk};
ghost use Rattle.serde_json.specs.View.{view as data_of, items_of, members_view};
ghost use Rattle.serde_json.specs.Data.{array, string, number, unsigned, no_members, put};
ghost use Rattle.serde_json.specs.Written.{compact_text};
ghost use Rattle.semantic_tree.specs.Shaped.{IsShaped};
ghost use Rattle.tree_json.specs.Form.{in_rows, in_list};
ghost use Rattle.tree_json.specs.Lines.{listing};
ghost use Rattle.tree_json.specs.Listing.{line};
ghost use Rattle.tree_json.specs.Top.{goal_name, lang_name};
ghost use Rattle.tree_json.specs.Views.{characters, places_view, IsSpelled, AreSpelled};
ghost use Rattle.tree_json.specs.Reading.{reading, listed_program};
ghost use Rattle.tree_json.specs.WrittenForm.{AreWrittenForm};
ghost use Rattle.tree_json.specs.Written.{texts_of, comment_data, rows_data, text_data, object_data, program_data, texts_member, Each, IsReadable, IsTextAgain};

use crate::list::push_rows;
use crate::places::{TextPlaces, texts_of};
use crate::row::Row;
use crate::top::{goal_name, lang_name};
use crate::values::{comment_values, row_values, text_values};
use indexmap::IndexSet;
use semantic_kinds::role::Role;
use semantic_syntax::SourceType;
use semantic_tree::program::Program;
use serde_json::{Map, Value};
use std::alloc::{AllocError, Global};

/// The parts of a written form that differ from program to program, as JSON values.
#[derive(Drop)]
struct Parts {
    comments: Value,
    rows: Value,
    source: Value,
}

/// The compact text of the program's written form in format 1: keys in order, marks in the order of
/// their table. Reading it gives the program again, or want of memory.
pub fn write_program(alloc: Global, program: &Program) -> Result<Vec<u8>, AllocError>
    ensures text { IfOk result (λ bytes. bytes.items
        ≡ compact_text (program_data in_rows program.now)) }
    ensures written { IfOk result (λ bytes. AreWrittenForm bytes.items program.now) }
    ensures again { IfOk result (λ bytes. reading bytes.items ≡ Ok (listed_program program.now)) }
{
    let rows = rows_of(alloc, program)?;
    let value = plain_value(alloc, program, &rows)?;
    value.to_vec(alloc)
}

/// The same in format 2, whose list of texts has each text of a node once, in order of first use.
pub fn write_program_with_texts(alloc: Global, program: &Program) -> Result<Vec<u8>, AllocError>
    ensures text { IfOk result (λ bytes. bytes.items
        ≡ compact_text (program_data (in_list (texts_of program.now)) program.now)) }
    ensures written { IfOk result (λ bytes. AreWrittenForm bytes.items program.now) }
    ensures again { IfOk result (λ bytes. reading bytes.items ≡ Ok (listed_program program.now)) }
{
    let rows = rows_of(alloc, program)?;
    let value = form_with_texts(alloc, program, &rows)?;
    value.to_vec(alloc)
}

/// The rows of a program.
fn rows_of(alloc: Global, program: &Program) -> Result<Vec<Row<'_>>, AllocError>
    ensures rows { IfOk result (λ rows. map line rows.items ≡ listing program.now.root) }
    ensures shaped { IfOk result (λ rows. IsShaped program.now) }
{
    let mut rows = Vec::with_capacity(alloc, program.node_count() as usize)?;
    push_rows(&mut rows, program.root().node(), 0, Role::Root)?;
    Ok(rows)
}

/// The written form in format 1 of a program with these rows.
#[tactic(auto, unfolding(crate::specs::Written::program_data))]
fn plain_value(alloc: Global, program: &Program, rows: &[Row<'_>]) -> Result<Value, AllocError>
    requires { map line rows.now ≡ listing program.now.root }
    ensures value { IfOk result (λ v. data_of v ≡ program_data in_rows program.now) }
    ensures readable { IfOk result (λ v. IsReadable in_rows program.now) }
{
    let parts = parts_of(alloc, program, TextPlaces::InPlace, rows)?;
    plain_object(alloc, program.source_type(), parts)
}

/// The written form in format 2 of a program with these rows. The list of their texts is given back
/// before a text is made of it.
fn form_with_texts(alloc: Global, program: &Program, rows: &[Row<'_>]) -> Result<Value, AllocError>
    requires { map line rows.now ≡ listing program.now.root }
    ensures value { IfOk result
        (λ v. data_of v ≡ program_data (in_list (texts_of program.now)) program.now) }
    ensures readable { IfOk result (λ v. IsReadable (in_list (texts_of program.now)) program.now) }
    ensures again { IfOk result (λ v. Each IsTextAgain (texts_of program.now)) }
{
    let texts = texts_of(alloc, rows)?;
    value_with_texts(alloc, program, &texts, rows)
}

/// The written form in format 2 of a program with these rows, whose texts are these.
#[tactic(auto, unfolding(crate::specs::Written::program_data))]
fn value_with_texts(
    alloc: Global,
    program: &Program,
    texts: &IndexSet<&str>,
    rows: &[Row<'_>],
) -> Result<Value, AllocError>
    requires spelled { Each IsSpelled texts.now.keys }
    requires listed { map line rows.now ≡ listing program.now.root }
    ensures value { IfOk result (λ v. data_of v
        ≡ program_data (in_list (map characters texts.now.keys)) program.now) }
    ensures readable { IfOk result
        (λ v. IsReadable (in_list (map characters texts.now.keys)) program.now) }
{
    let parts = parts_of(alloc, program, TextPlaces::InSet(texts), rows)?;
    object_with_texts(alloc, program.source_type(), parts, texts.as_slice())
}

/// The parts of a program's written form, whose rows are these and tell their texts so.
fn parts_of(
    alloc: Global,
    program: &Program,
    places: TextPlaces<'_, '_>,
    rows: &[Row<'_>],
) -> Result<Parts, AllocError>
    requires spelled { AreSpelled places }
    requires listed { map line rows.now ≡ listing program.now.root }
    ensures comments { IfOk result (λ parts. data_of parts.comments
        ≡ array (items_of (map comment_data program.now.comments))) }
    ensures rows { IfOk result (λ parts. data_of parts.rows
        ≡ rows_data (places_view places.entry) (listing program.now.root)) }
    ensures source { IfOk result (λ parts. data_of parts.source ≡ text_data program.now.source) }
    ensures readable { IfOk result (λ parts. IsReadable (places_view places.entry) program.now) }
{
    let comments = comment_values(alloc, program.comments())?;
    let rows = row_values(alloc, places, rows)?;
    let source = Value::try_from_str(alloc, program.source_text())?;
    Ok(Parts {
        comments: Value::Array(comments),
        rows: Value::Array(rows),
        source,
    })
}

fn plain_object(alloc: Global, source_type: SourceType, parts: Parts) -> Result<Value, AllocError>
    ensures { IfOk result (λ v. data_of v ≡ object_data 1 source_type
        (data_of parts.comments) (data_of parts.rows) (data_of parts.source) no_members) }
{
    let mut members = Map::new(alloc);
    put_parts(&mut members, alloc, parts)?;
    put_type(&mut members, alloc, 1, source_type)?;
    Ok(Value::Object(members))
}

fn object_with_texts(
    alloc: Global,
    source_type: SourceType,
    parts: Parts,
    texts: &[&str],
) -> Result<Value, AllocError>
    ensures { IfOk result (λ v. data_of v ≡ object_data 2 source_type
        (data_of parts.comments) (data_of parts.rows) (data_of parts.source)
        (texts_member (in_list (map characters texts.now)))) }
{
    let mut members = Map::new(alloc);
    put_parts(&mut members, alloc, parts)?;
    put_type(&mut members, alloc, 2, source_type)?;
    let texts = Value::Array(text_values(alloc, texts)?);
    serde_json::put(&mut members, alloc, "texts", texts)?;
    Ok(Value::Object(members))
}

/// Puts the parts in. They are owned here alone, so that no other step has to give them back where
/// it fails.
fn put_parts(
    members: &mut Map<String, Value>,
    alloc: Global,
    parts: Parts,
) -> Result<(), AllocError>
    ensures { OnOk result (members_view members.new.entries
        ≡ put (codes "source") (data_of parts.source) (put (codes "rows") (data_of parts.rows)
        (put (codes "comments") (data_of parts.comments) (members_view members.old.entries)))) }
{
    serde_json::put(members, alloc, "comments", parts.comments)?;
    serde_json::put(members, alloc, "rows", parts.rows)?;
    serde_json::put(members, alloc, "source", parts.source)
}

/// Puts the format and the type of the source in.
fn put_type(
    members: &mut Map<String, Value>,
    alloc: Global,
    format: u64,
    source_type: SourceType,
) -> Result<(), AllocError>
    ensures { OnOk result (members_view members.new.entries
        ≡ put (codes "lang") (string (lang_name source_type.lang))
        (put (codes "goal") (string (goal_name source_type.goal))
        (put (codes "format") (number (unsigned format)) (members_view members.old.entries)))) }
{
    serde_json::put(members, alloc, "format", Value::from(format))?;
    put_name(members, alloc, "goal", goal_name(source_type.goal))?;
    put_name(members, alloc, "lang", lang_name(source_type.lang))
}

fn put_name(
    members: &mut Map<String, Value>,
    alloc: Global,
    key: &str,
    name: &str,
) -> Result<(), AllocError>
    ensures { OnOk result (members_view members.new.entries
        ≡ put key.now (string name.now) (members_view members.old.entries)) }
{
    serde_json::put(members, alloc, key, Value::try_from_str(alloc, name)?)
}
