//! From bytes to a program.
ghost use Rattle.std.specs.Prelude.{◌≡◌, Some, None, ◌<◌, ◌≤◌, ◌-◌, ◌^◌, Ok, length, map, IfOk, IfErr, IfSome, IsTrue, IsFalse, false};
ghost use Rattle.std.specs.Str.{IsUtf8, chars};
ghost use Rattle.serde_json.specs.Data.{Data};
ghost use Rattle.serde_json.specs.Read.{read};
ghost use Rattle.tree_json.specs.WrittenForm.{IsWrittenForm, AreWrittenForm, IsReadAs};
ghost use Rattle.serde_json.specs.View.{view as data_of, items_view};
ghost use Rattle.semantic_tree.specs.Tree.{Tree, IsNumbered};
ghost use Rattle.semantic_tree.specs.Faults.{first_fault};
ghost use Rattle.semantic_tree.specs.Shaped.{IsShaped};
ghost use Rattle.semantic_tree.specs.declared.error.TreeError.TheVariants.{NotJson};
ghost use Rattle.tree_json.specs.Lines.{listing};
ghost use Rattle.tree_json.specs.Listing.{line, IsListing};
ghost use Rattle.tree_json.specs.Views.{top_view, texts_view, parts_view};
ghost use Rattle.tree_json.specs.Outcome.{Gives, IsWantOfMemory};
ghost use Rattle.tree_json.specs.Reading.{value_in, lines_with, lines_in, listed_of, listed_in, reading, listed_program, are_too_many, shallow_from, Refuses};
ghost use Rattle.tree_json.specs.Pulled.{IsPulled};

use crate::build::tree_of;
use crate::comments::{comments_of, texts_of};
use crate::pull_top::{Pulled, take_top};
use crate::row::RowTexts;
use crate::rows::{are_listed, tree_of_values};
use crate::top::{Top, top_of};
use json::{Reader, Scratch};
use semantic_syntax::{SourceType, Text};
use semantic_tree::comment::Comment;
use semantic_tree::error::TreeError;
use semantic_tree::node::Node;
use semantic_tree::program::{COMMENT_LIMIT, NODE_LIMIT, Program, SOURCE_LIMIT};
use serde_json::Value;
use std::alloc::{AllocError, Global};

/// A row has about so many bytes of a written form at least. Room that no row takes is not touched.
const BYTES_OF_ROW: usize = 48;

/// The parts of a program, before its tree is looked at.
#[derive(Drop)]
struct Parts {
    source: Text,
    source_type: SourceType,
    comments: Vec<Comment>,
    root: Node,
}

/// The program that the bytes are a written form of, in either format.
///
/// # Errors
/// In this order: `NotJson`; `Shape(None)` for the top object; `TooMany`; `Shape` at the least row that is
/// not of the row form; then as `Program::new`. `Memory` may come at any place.
pub fn read_program(alloc: Global, bytes: &[u8]) -> Result<Program, TreeError>
    // Which program is read.
    ensures read { IfOk result (λ p. reading bytes.now ≡ Ok (listed_program p)) }
    ensures numbered { IfOk result (λ p. IsNumbered p.root) }
    ensures shaped { IfOk result (λ p. IsShaped p) }
    // Which refusal it is.
    ensures refused { IfErr result (λ e. ¬ IsWantOfMemory e → Refuses (reading bytes.now) e) }
    // What is read is a written form.
    ensures found { IfOk result (λ p. AreWrittenForm bytes.now p) }
    // Each written form of a shaped program is read.
    ensures complete { (d : Data) (p : Tree) → IsUtf8 bytes.now → read bytes.now ≡ Some d
        → IsWrittenForm d p → IsNumbered p.root → IsShaped p → IsReadAs p result }
{
    read_all(alloc, bytes)
}

#[tactic(auto, unfolding(crate::specs::Reading::reading))]
fn read_all(alloc: Global, bytes: &[u8]) -> Result<Program, TreeError>
    ensures read { IfOk result (λ p. reading bytes.now ≡ Ok (listed_program p)) }
    ensures numbered { IfOk result (λ p. IsNumbered p.root) }
    ensures shaped { IfOk result (λ p. IsShaped p) }
    ensures refused { IfErr result (λ e. ¬ IsWantOfMemory e → Refuses (reading bytes.now) e) }
{
    if let Some(parts) = parts_at_once(alloc, bytes)? {
        return program_of(alloc, parts);
    }
    let value = value_of(alloc, bytes)?;
    let parts = parts_of(alloc, &value)?;
    program_of(alloc, parts)
}

/// The parts of a program whose bytes have the form that the writer gives; none where they have another.
fn parts_at_once(alloc: Global, bytes: &[u8]) -> Result<Option<Parts>, AllocError>
    ensures { IfOk result (λ o. IfSome o (λ parts. reading bytes.now ≡ Ok (parts_view parts))) }
{
    let Ok(text) = std::str::from_utf8(bytes) else {
        return Ok(None);
    };
    let mut scratch = Scratch::new(alloc);
    let mut reader = Reader::new(text, &mut scratch)?;
    match take_top(alloc, &mut reader, text.len() / BYTES_OF_ROW)? {
        Some(top) => parts_of_pulled(alloc, top),
        None => Ok(None),
    }
}

/// The parts that what was pulled says, if it is within the limits and its rows list a tree.
fn parts_of_pulled(alloc: Global, top: Pulled<'_>) -> Result<Option<Parts>, AllocError>
    ensures { IfOk result (λ o.
        IfSome o (λ parts. (d : Data) → IsPulled d top.entry
        → listed_in d ≡ Ok (parts_view parts))) }
{
    if lists_tree(&top) {
        Ok(Some(parts_listed(alloc, top)?))
    } else {
        Ok(None)
    }
}

/// Whether what was pulled is within the limits, and its rows list a tree.
fn lists_tree(top: &Pulled<'_>) -> bool
    ensures some { IsTrue result → 0 < length top.now.rows.items }
    ensures few { IsTrue result
        → are_too_many (length top.now.rows.items) (length top.now.comments.items)
        (chars top.now.source.now) ≡ false }
    ensures listed { IsTrue result → IsListing (map line top.now.rows.items)
        × (shallow_from 0 (map line top.now.rows.items) ≡ Ok tt) }
{
    !top.rows.is_empty()
        && !are_too_many(top.rows.len(), top.comments.len(), top.source)
        && are_listed(&top.rows)
}

/// The parts that what was pulled says, whose rows list a tree.
fn parts_listed(alloc: Global, top: Pulled<'_>) -> Result<Parts, AllocError>
    requires { IsListing (map line top.rows.items) }
    ensures { IfOk result (λ parts. parts_view parts ≡ record {
      source = chars top.entry.source.now;
      source_type = top.entry.source_type;
      comments = top.entry.comments.items;
      lines = map line top.entry.rows.items;
    }) }
{
    let root = tree_of(alloc, &top.rows)?;
    parts_with(alloc, top.source, top.source_type, top.comments, root)
}

/// The parts with a text of their own. They are put together here alone, so that no other step has to
/// give them back where it fails.
fn parts_with(
    alloc: Global,
    source: &str,
    source_type: SourceType,
    comments: Vec<Comment>,
    root: Node,
) -> Result<Parts, AllocError>
    ensures { IfOk result (λ parts. parts_view parts
        ≡ record {
          source = chars source.now;
          source_type = source_type;
          comments = comments.items;
          lines = listing root;
        }) }
{
    let source = Text::new(alloc, source)?;
    Ok(Parts {
        source,
        source_type,
        comments,
        root,
    })
}

/// The program of these parts, if it has no fault.
fn program_of(alloc: Global, parts: Parts) -> Result<Program, TreeError>
    ensures read { IfOk result (λ p. listed_program p ≡ parts_view parts) }
    ensures numbered { IfOk result (λ p. IsNumbered p.root) }
    ensures shaped { IfOk result (λ p. IsShaped p) }
    ensures refused { IfErr result
        (λ e. (p : Tree) × IsNumbered p.root × (listed_program p ≡ parts_view parts)
        × (first_fault p ≡ Some e)) }
{
    Program::new(
        alloc,
        parts.source,
        parts.source_type,
        parts.comments,
        parts.root,
    )
}

/// The value that the bytes are in JSON.
#[tactic(auto, using(crate::proofs::Readings::value_in_ok, crate::proofs::Readings::value_in_err))]
fn value_of(alloc: Global, bytes: &[u8]) -> Result<Value, TreeError>
    ensures { Gives data_of result (value_in NotJson bytes.now) }
{
    match Value::from_slice(alloc, bytes) {
        Ok(value) => Ok(value),
        Err(e) if e.is_memory() => Err(TreeError::Memory(AllocError)),
        Err(_) => Err(TreeError::NotJson),
    }
}

/// What a value says.
#[tactic(auto, unfolding(crate::specs::Reading::listed_in))]
fn parts_of(alloc: Global, value: &Value) -> Result<Parts, TreeError>
    ensures { Gives parts_view result (listed_in (data_of value.now)) }
{
    let top = top_of(value).ok_or(TreeError::Shape(None))?;
    parts_of_top(alloc, &top)
}

/// What a top object says.
#[tactic(auto, unfolding(crate::specs::Reading::listed_of))]
fn parts_of_top(alloc: Global, top: &Top<'_>) -> Result<Parts, TreeError>
    ensures { Gives parts_view result (listed_of (top_view top.now)) }
{
    let comments = comments_of(alloc, top.comments)?;
    let root = root_of(alloc, top, comments.len())?;
    let parts = parts_with(alloc, top.source, top.source_type, comments, root)?;
    Ok(parts)
}

/// The root of a top object with so many comments.
#[tactic(auto, unfolding(crate::specs::Reading::lines_in))]
fn root_of(alloc: Global, top: &Top<'_>, comments: usize) -> Result<Node, TreeError>
    ensures { Gives listing result (lines_in (top_view top.now) comments) }
{
    match top.texts {
        None => root_with(alloc, top, comments, RowTexts::InRows),
        Some(values) => {
            let texts = texts_of(alloc, values)?;
            root_with(alloc, top, comments, RowTexts::InList(&texts))
        }
    }
}

/// Whether so many rows, so many comments or a source are beyond their limits.
#[tactic(auto, using(crate::proofs::Readings::length_of_chars), unfolding(crate::specs::Reading::are_too_many))]
fn are_too_many(rows: usize, comments: usize, source: &str) -> bool
    ensures within { IsFalse result → rows < 2 ^ 32 - 1 }
    ensures value { result ≡ are_too_many rows comments (chars source.now) }
{
    rows > NODE_LIMIT as usize || comments > COMMENT_LIMIT || source.len() > SOURCE_LIMIT
}

/// The root, whose rows tell these texts.
#[tactic(auto, using(crate::proofs::Readings::items_len_view), unfolding(crate::specs::Reading::lines_with))]
fn root_with(
    alloc: Global,
    top: &Top<'_>,
    comments: usize,
    texts: RowTexts<'_, '_>,
) -> Result<Node, TreeError>
    ensures { Gives listing result
        (lines_with (top_view top.now) comments (texts_view texts.entry)) }
{
    if top.rows.is_empty() {
        return Err(TreeError::Shape(None));
    }
    if are_too_many(top.rows.len(), comments, top.source) {
        return Err(TreeError::TooMany);
    }
    tree_of_values(alloc, texts, top.rows)
}
