//! The names of references.
ghost use Rattle.std.specs.Prelude.{◌≡◌, ◌<◌, IfOk, None, length, map, replicate};
ghost use Rattle.std.specs.Str.{chars, encode_utf8_all};
ghost use Rattle.scoping_rows.specs.Names.{name_of};
ghost use Rattle.semantic_syntax.specs.Reading.{reference_of};
ghost use Rattle.report_lines.specs.TableLines.{reference_name};
ghost use Rattle.report_lines.specs.FreeNames.{name_shown, named_once, named_each, names_with_free, free_names};

use scoping::Scoping;
use semantic_syntax::{Ident, ReferenceId};
use std::alloc::{AllocError, Global};

// Gives the name to a reference that has none.
fn name_once<'s>(names: &mut [Option<Ident<'s>>], reference: ReferenceId, name: Ident<'s>)
    ensures { map name_shown names.new
        ≡ named_once (map name_shown names.old) reference (name_of name.entry) }
{
    let place = reference.index();
    if place < names.len() && names[place].is_none() {
        names[place] = Some(name);
    }
}

// Gives the name to those of the references that have none.
fn name_each<'s>(names: &mut [Option<Ident<'s>>], references: &[ReferenceId], name: Ident<'s>)
    ensures { map name_shown names.new
        ≡ named_each (map name_shown names.old) references.now (name_of name.entry) }
{
    for reference in references {
        name_once(names, *reference, name);
    }
}

// No names for so many references.
#[tactic(auto, using(crate::proofs::NamesOnce::none_shown))]
fn no_names<'s>(alloc: Global, count: usize) -> Result<Vec<Option<Ident<'s>>>, AllocError>
    ensures { IfOk result (λ names. map name_shown names.items ≡ replicate count None) }
{
    let mut names = Vec::new(alloc);
    names.resize(count, None)?;
    Ok(names)
}

/// What each of the references is called by the free lists, found in one pass over them.
pub fn free_names<'s>(
    alloc: Global,
    scoping: &'s Scoping,
) -> Result<Vec<Option<Ident<'s>>>, AllocError>
    ensures { IfOk result (λ names. map name_shown names.items ≡ free_names scoping.now) }
{
    let mut names = no_names(alloc, scoping.references_len())?;
    for (name, references) in scoping.root_unresolved_references().iter() {
        name_each(&mut names, references, name);
    }
    Ok(names)
}
