//! Names that no symbol may get: those that the program doesn't declare, and those of symbols that keep theirs.
ghost use Rattle.std.specs.Prelude.{◌≡◌, ◌<◌, ◌||◌, ◌&&◌, not, ℕ, List, bytes_eq, length, IfOk, OnOk};
ghost use Rattle.std.specs.List.{list_any};
ghost use Rattle.semantic_syntax.specs.Reading.{symbol_of};
ghost use Rattle.mangle_model.specs.GoodNames.{is_free_name, is_kept_name};
ghost use Rattle.mangle_names.specs.Marks.{is_number_marked};

use crate::numbers::is_marked;
use name_sets::NameSet;
use scoping::Scoping;
use semantic_syntax::SymbolId;
use std::alloc::{AllocError, Global};

/// Adds the free names.
pub fn add_free_names(
    alloc: Global,
    names: &mut NameSet,
    scoping: &Scoping,
) -> Result<(), AllocError>
    ensures { OnOk result ((q : List ℕ)
        → list_any (bytes_eq q) names.new
        ≡ (list_any (bytes_eq q) names.old || is_free_name scoping.now q)) }
{
    for (name, _) in scoping.root_unresolved_references().iter() {
        names.add(alloc, name.as_str())?;
    }
    Ok(())
}

/// Adds the name of the symbol, if it must keep it.
fn add_kept_name(
    alloc: Global,
    names: &mut NameSet,
    scoping: &Scoping,
    may: &[bool],
    symbol: SymbolId,
) -> Result<(), AllocError>
    requires { symbol < length scoping.now.symbols }
    ensures { OnOk result ((q : List ℕ)
        → list_any (bytes_eq q) names.new
        ≡ (list_any (bytes_eq q) names.old
        || (not (is_number_marked may.now symbol)
        && bytes_eq q (symbol_of scoping.now symbol).name))) }
{
    if is_marked(may, symbol.index()) {
        return Ok(());
    }
    names.add(alloc, scoping.symbol_name(symbol))
}

/// Adds the names of symbols that must keep theirs.
fn add_kept_names(
    alloc: Global,
    names: &mut NameSet,
    scoping: &Scoping,
    may: &[bool],
) -> Result<(), AllocError>
    ensures { OnOk result ((q : List ℕ)
        → list_any (bytes_eq q) names.new
        ≡ (list_any (bytes_eq q) names.old
        || is_kept_name (is_number_marked may.now) q 0 scoping.now.symbols)) }
{
    for number in 0..(scoping.symbols_len() as u32) {
        add_kept_name(alloc, names, scoping, may, SymbolId::new(number))?;
    }
    Ok(())
}

/// The free names, and those of symbols that must keep theirs.
pub fn barred_names(alloc: Global, scoping: &Scoping, may: &[bool]) -> Result<NameSet, AllocError>
    ensures { IfOk result (λ names. (q : List ℕ)
        → list_any (bytes_eq q) names
        ≡ (is_free_name scoping.now q
        || is_kept_name (is_number_marked may.now) q 0 scoping.now.symbols)) }
{
    let mut names = NameSet::new(alloc);
    add_free_names(alloc, &mut names, scoping)?;
    add_kept_names(alloc, &mut names, scoping, may)?;
    Ok(names)
}
