//! Which symbols keep their names, and which go with others.
ghost use Rattle.std.specs.Prelude.{◌<◌, length};

use crate::numbers::{NONE, is_marked, set};
use crate::uses::{Uses, count_at, extra_of};
use scoping::Scoping;
use semantic_syntax::{ScopeFlags, ScopeId, SymbolFlags, SymbolId};
use std::alloc::{AllocError, Global};

/// The number of the symbol that hides this one, which is bound nowhere: a function expression's name that a parameter or
/// variable has too.
fn hider(scoping: &Scoping, symbol: SymbolId) -> usize
    requires { symbol < length scoping.now.symbols }
{
    let scope = scoping.symbol_scope_id(symbol);
    if scope.index() >= scoping.scopes_len() {
        return NONE;
    }
    match scoping.get_binding(scope, scoping.symbol_ident(symbol)) {
        Some(found) => { if found == symbol { NONE } else { found.index() } }
        None => NONE,
    }
}

/// Those numbers, for all symbols.
pub fn hiders(alloc: Global, scoping: &Scoping) -> Result<Vec<usize>, AllocError> {
    let mut all = Vec::new(alloc);
    for number in 0..(scoping.symbols_len() as u32) {
        all.push(hider(scoping, SymbolId::new(number)))?;
    }
    Ok(all)
}

/// Whether another name of one character for the symbol saves nothing.
fn saves_nothing(scoping: &Scoping, uses: &[Uses], symbol: SymbolId) -> bool
    requires { symbol < length scoping.now.symbols }
{
    let extra = extra_of(uses, symbol.index());
    let each = scoping.symbol_name(symbol).len().saturating_sub(1);
    extra > 0 && count_at(uses, symbol.index()).saturating_mul(each) <= extra
}

/// Keeps the symbol that the scope binds to the other's name, and says whether variables go no further outward.
fn keep_bound(scoping: &Scoping, stays: &mut Vec<bool>, scope: ScopeId, symbol: SymbolId) -> bool
    requires { symbol < length scoping.now.symbols }
{
    if scope.index() >= scoping.scopes_len() {
        return true;
    }
    match scoping.get_binding(scope, scoping.symbol_ident(symbol)) {
        Some(other) => set(stays, other.index()),
        None => {}
    }
    scoping.scope_flags(scope).intersects(ScopeFlags::Var)
}

/// Whether the symbol is a function in a block of sloppy code.
fn is_block_function(scoping: &Scoping, symbol: SymbolId, home: ScopeId) -> bool
    requires symbol { symbol < length scoping.now.symbols }
    requires scope { home < length scoping.now.scopes }
{
    let flags = scoping.scope_flags(home);
    scoping
        .symbol_flags(symbol)
        .intersects(SymbolFlags::Function)
        && !flags.intersects(ScopeFlags::StrictMode)
        && !flags.intersects(ScopeFlags::Var)
}

/// Keeps a function in a block of sloppy code, and all of its name around it: where it stays in its block only since a
/// name around it is the same (ECMAScript, Annex B.3.2), it must not move.
fn keep_in_block(scoping: &Scoping, stays: &mut Vec<bool>, symbol: SymbolId)
    requires { symbol < length scoping.now.symbols }
{
    let home = scoping.symbol_scope_id(symbol);
    if home.index() >= scoping.scopes_len() || !is_block_function(scoping, symbol, home) {
        return;
    }
    set(stays, symbol.index());
    for scope in scoping.scope_ancestors(home) {
        if keep_bound(scoping, stays, scope, symbol) {
            return;
        }
    }
}

/// Keeps the functions in blocks of sloppy code.
fn keep_block_functions(scoping: &Scoping, stays: &mut Vec<bool>) {
    for number in 0..(scoping.symbols_len() as u32) {
        keep_in_block(scoping, stays, SymbolId::new(number));
    }
}

/// For each symbol, whether it keeps its name.
pub fn staying_symbols(
    alloc: Global,
    scoping: &Scoping,
    uses: &[Uses],
    may: &[bool],
) -> Result<Vec<bool>, AllocError> {
    let mut stays = Vec::new(alloc);
    for number in 0..(scoping.symbols_len() as u32) {
        let symbol = SymbolId::new(number);
        let keeps = !is_marked(may, symbol.index()) || saves_nothing(scoping, uses, symbol);
        stays.push(keeps)?;
    }
    keep_block_functions(scoping, &mut stays);
    Ok(stays)
}
