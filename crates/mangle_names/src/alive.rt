//! Which symbols are alive in a scope: their names stand in it or below it, and they belong to it or to one around it.
use crate::numbers::{NONE, at, filled, lists, push_at, put};
use crate::uses::Uses;
use scoping::Scoping;
use semantic_syntax::{ScopeId, SymbolId};
use std::alloc::{AllocError, Global};

/// The symbols that are alive in each scope, but for those that belong to it, and the last symbol that was met there.
#[derive(Drop)]
struct Noted {
    symbols: Vec<Vec<usize>>,
    last: Vec<usize>,
}

/// Notes the symbol in the scopes from one outward, up to its own or to one where it is noted.
fn note_outward(
    scoping: &Scoping,
    alive: &mut Noted,
    symbol: usize,
    home: usize,
    from: usize,
) -> Result<(), AllocError> {
    if from >= scoping.scopes_len() || from >= NONE {
        return Ok(());
    }
    for scope in scoping.scope_ancestors(ScopeId::new(from as u32)) {
        // a catch parameter stands outside of the scope that takes it over
        if scope.index() < home || at(&alive.last, scope.index()) == symbol {
            return Ok(());
        }
        put(&mut alive.last, scope.index(), symbol);
        push_at(&mut alive.symbols, scope.index(), symbol)?;
    }
    Ok(())
}

/// Notes the symbol wherever it is alive.
fn note_symbol(
    scoping: &Scoping,
    alive: &mut Noted,
    entry: &Uses,
    symbol: usize,
    home: usize,
) -> Result<(), AllocError> {
    put(&mut alive.last, home, symbol);
    for from in entry.scopes.as_slice() {
        note_outward(scoping, alive, symbol, home, *from)?;
    }
    Ok(())
}

/// The symbols that are alive in each scope, but for those that belong to it.
pub fn alive_symbols(
    alloc: Global,
    scoping: &Scoping,
    uses: &[Uses],
) -> Result<Vec<Vec<usize>>, AllocError> {
    let mut alive = Noted {
        symbols: lists(alloc, scoping.scopes_len())?,
        last: filled(alloc, scoping.scopes_len(), NONE)?,
    };
    for number in 0..(scoping.symbols_len() as u32) {
        let home = scoping.symbol_scope_id(SymbolId::new(number)).index();
        match uses.get(number as usize) {
            Some(entry) => note_symbol(scoping, &mut alive, entry, number as usize, home)?,
            None => {}
        }
    }
    Ok(alive.symbols)
}
