//! The names that stay, and those that are taken.
ghost use Rattle.std.specs.Prelude.{◌≡◌, nat_lt, IfOk};
ghost use Rattle.std.specs.Str.{chars};
ghost use Rattle.mangle_model.specs.Written.{size_of};
ghost use Rattle.simple_names.specs.Telling.{may_by, told_by};
ghost use Rattle.simple_names.specs.TakenNames.{changes_by, unused_by, AreTaken};

use crate::known::Known;
use crate::standing::standing_names;
use mangle_names::{barred_names, is_reserved};
use name_sets::NameSet;
use semantic_tree::Program;
use std::alloc::{AllocError, Global};

/// Names of a program.
#[derive(Drop)]
pub struct Taken {
    /// The free names, and those of symbols that must keep theirs.
    pub barred: NameSet,
    /// The free names, and those of all symbols.
    pub tabled: NameSet,
    /// Those at nodes that bear no symbol which may change.
    pub standing: NameSet,
}

/// Whether the name has more than one byte.
fn is_long(name: &str) -> bool
    ensures { result ≡ nat_lt 1 (size_of (chars name.now)) }
{
    name.len() > 1
}

impl Taken {
    /// Whether the name changes: it has more than one byte, and doesn't stay.
    pub fn changes(&self, name: &str) -> bool
        ensures { result ≡ changes_by self.now (chars name.now) }
    {
        is_long(name) && !(self.barred.has(name) || self.standing.has(name))
    }

    /// Whether nothing has the name yet, and it is no word.
    pub fn is_unused(&self, name: &str) -> bool
        ensures { result ≡ unused_by self.now (chars name.now) }
    {
        !(is_reserved(name) || self.tabled.has(name) || self.standing.has(name))
    }
}

/// The names of the program.
pub fn taken_names(alloc: Global, program: &Program, known: &Known<'_>) -> Result<Taken, AllocError>
    ensures { IfOk result (AreTaken (may_by known.now) (told_by known.now) program.now) }
{
    let standing = standing_names(alloc, program, known)?;
    let barred = barred_names(alloc, known.scoping, known.may)?;
    let tabled = barred_names(alloc, known.scoping, &[])?;
    Ok(Taken {
        barred,
        tabled,
        standing,
    })
}
