//! Free references to names that nobody declares.
ghost use Rattle.std.specs.Prelude.{◌≡◌, ◌<◌, length, map, IfOk, ℕ, List};
ghost use Rattle.scoping_rows.specs.Names.{name_of};
ghost use Rattle.semantic_syntax.specs.Lookup.{is_arguments};
ghost use Rattle.name_lint.specs.Gathered.{text_of};
ghost use Rattle.name_lint.specs.Known.{known_names};
ghost use Rattle.name_lint.specs.Undeclared.{means_arguments, is_known, is_undeclared, undeclared_from};

use crate::id_lists::ReferenceIdList;
use crate::known_names::known_names;
use crate::scope_questions::is_in_function;
use name_sets::NameSet;
use scoping::Scoping;
use semantic_kinds::class::is_word;
use semantic_syntax::{Ident, Reference, ReferenceFlags, ReferenceId};
use semantic_tree::AstKind;
use std::alloc::{AllocError, Global};

/// Whether a reference in this way means the arguments of the function around it, if there is one.
fn is_arguments(name: Ident<'_>, way: ReferenceFlags) -> bool
    ensures { result ≡ is_arguments (name_of name.entry) way.bits }
{
    is_word(name.as_str(), "arguments") && (way.is_value() || way.is_value_as_type())
}

/// Whether the reference means the arguments of a function around it.
fn means_arguments(scoping: &Scoping, name: Ident<'_>, reference: &Reference) -> bool
    ensures { result ≡ means_arguments scoping.now (name_of name.entry) reference.now }
{
    is_arguments(name, reference.flags()) && is_in_function(scoping, reference.scope_id())
}

/// Whether the reference is free, of an unknown name, and means no arguments.
fn is_undeclared(scoping: &Scoping, known: &NameSet, name: Ident<'_>, reference: &Reference) -> bool
    ensures { result ≡ is_undeclared known.now scoping.now (name_of name.entry) reference.now }
{
    reference.symbol_id().is_none()
        && !known.has(name.as_str())
        && !means_arguments(scoping, name, reference)
}

/// The references to names that nobody declares and that aren't known, ascending; these are the nodes of the references.
fn undeclared(
    alloc: Global,
    scoping: &Scoping,
    references: &[AstKind<'_>],
    known: &NameSet,
) -> Result<Vec<ReferenceId>, AllocError>
    requires { length references.now ≡ length scoping.now.references }
    ensures { IfOk result (λ found. found.items
        ≡ undeclared_from known.now scoping.now 0
        (map text_of references.now) scoping.now.references) }
{
    let mut found = Vec::new(alloc);
    let count = scoping.references_len() as u32;
    for number in 0..count {
        let id = ReferenceId::new(number);
        let name = references[number as usize].text();
        if is_undeclared(scoping, known, name, scoping.get_reference(id)) {
            found.push(id)?;
        }
    }
    Ok(found)
}

/// The references to names that nobody declares and that aren't among the words, ascending; these are the nodes of the references.
pub fn undeclared_names(
    alloc: Global,
    scoping: &Scoping,
    references: &[AstKind<'_>],
    words: &[String],
) -> Result<ReferenceIdList, AllocError>
    requires { length references.now ≡ length scoping.now.references }
    ensures { IfOk result (λ found. found
        ≡ undeclared_from (known_names words.now) scoping.now 0
        (map text_of references.now) scoping.now.references) }
{
    let known = known_names(alloc, words)?;
    let found = undeclared(alloc, scoping, references, &known)?;
    Ok(ReferenceIdList::new(found))
}
