//! The simple mangler's names.
ghost use Rattle.std.specs.Prelude.{◌≡◌, ◌++◌, [], ◌∷◌, option_map, IfOk, OnOk};
ghost use Rattle.std.specs.Str.{chars};
ghost use Rattle.mangle_model.specs.OneNameEach.{name_pairs, names_by_name};
ghost use Rattle.simple_names.specs.Telling.{may_by, told_by};

use crate::changing::changing_names;
use crate::known::Known;
use crate::name_map::NameMap;
use crate::pairs::name_pairs;
use crate::sets::taken_names;
use mangle_names::NewNames;
use scoping::Scoping;
use semantic_syntax::SymbolId;
use semantic_tree::Program;
use std::alloc::{AllocError, Global};

/// The next symbol gets the name, or keeps its own.
fn push_name(alloc: Global, names: &mut NewNames, name: Option<&str>) -> Result<(), AllocError>
    ensures { OnOk result (names.new
        ≡ names.old ++ option_map (λ text. chars text.now) name.entry ∷ []) }
{
    match name {
        Some(name) => names.push(alloc, name),
        None => names.push_none(),
    }
}

/// The new name of its name for each symbol.
fn names_by(alloc: Global, scoping: &Scoping, pairs: &NameMap) -> Result<NewNames, AllocError>
    ensures { IfOk result (λ names. names ≡ names_by_name pairs.now scoping.now.symbols) }
{
    let mut names = NewNames::new(alloc);
    for number in 0..(scoping.symbols_len() as u32) {
        let symbol = SymbolId::new(number);
        push_name(alloc, &mut names, pairs.get(scoping.symbol_name(symbol)))?;
    }
    Ok(names)
}

/// The simple mangler's names for the symbols of a program. The only error is want of memory.
pub fn each_named(
    alloc: Global,
    program: &Program,
    known: &Known<'_>,
) -> Result<NewNames, AllocError>
    ensures { IfOk result (λ names. names
        ≡ names_by_name (name_pairs (may_by known.now) (told_by known.now) program.now)
        (told_by known.now).tables.symbols) }
{
    let taken = taken_names(alloc, program, known)?;
    let changing = changing_names(alloc, known.scoping, &taken)?;
    let pairs = name_pairs(alloc, &changing, &taken)?;
    names_by(alloc, known.scoping, &pairs)
}
