//! The names that change, each once.
ghost use Rattle.std.specs.Prelude.{◌≡◌, [], cond, filter, fold, IfOk, OnOk};
ghost use Rattle.std.specs.Str.{chars};
ghost use Rattle.mangle_model.specs.OneNameEach.{joining, symbol_names};
ghost use Rattle.simple_names.specs.TakenNames.{changes_by};

use crate::sets::Taken;
use name_sets::NameSet;
use scoping::Scoping;
use semantic_syntax::SymbolId;
use std::alloc::{AllocError, Global};

/// Adds the name, if it changes.
fn add_changing(
    alloc: Global,
    names: &mut NameSet,
    taken: &Taken,
    name: &str,
) -> Result<(), AllocError>
    ensures { OnOk result (names.new
        ≡ cond (changes_by taken.now (chars name.now))
        (joining names.old (chars name.now)) names.old) }
{
    if taken.changes(name) {
        names.add(alloc, name)?;
    }
    Ok(())
}

/// The names that change, in order of their first symbols.
pub fn changing_names(
    alloc: Global,
    scoping: &Scoping,
    taken: &Taken,
) -> Result<NameSet, AllocError>
    ensures { IfOk result (λ names. names
        ≡ fold joining [] (filter (changes_by taken.now) (symbol_names scoping.now))) }
{
    let mut names = NameSet::new(alloc);
    for number in 0..(scoping.symbols_len() as u32) {
        let symbol = SymbolId::new(number);
        add_changing(alloc, &mut names, taken, scoping.symbol_name(symbol))?;
    }
    Ok(names)
}
