//! Which symbols are in use.
ghost use Rattle.std.specs.Prelude.{◌≡◌, ◌<◌, ◌++◌, ℕ, true, length, filter_map, IfOk, OnOk};
ghost use Rattle.semantic_syntax.specs.Reading.{symbol_of};
ghost use Rattle.reachability.specs.Marked.{is_marked};
ghost use Rattle.name_lint.specs.Live.{is_sure, sure_from, unmarked_from, AreOutsideSet};
ghost use Rattle.name_lint.specs.Gathered.{symbol_at_node};
ghost use Rattle.name_lint.specs.Within.{LiveIn, OwnersAreSymbols};

use crate::id_lists::SymbolIdList;
use crate::reference_uses::ReferenceUses;
use crate::scope_questions::has_direct_eval;
use reachability::{reached, rows_of};
use scoping::{NodeTables, Scoping};
use semantic_syntax::{NodeId, SymbolFlags, SymbolId};
use std::alloc::{AllocError, Global};

/// Whether the symbol counts as used, whatever refers to it: a member of an enum, the name of a function expression, one
/// that is only declared, or one that a direct call of `eval` may name.
fn is_sure(scoping: &Scoping, symbol: SymbolId) -> bool
    requires { symbol < length scoping.now.symbols }
    ensures { result ≡ is_sure scoping.now (symbol_of scoping.now symbol) }
{
    let flags = scoping.symbol_flags(symbol);
    flags.intersects(SymbolFlags::EnumMember)
        || flags.intersects(SymbolFlags::FunctionExpression)
        || flags.intersects(SymbolFlags::Ambient)
        || has_direct_eval(scoping, scoping.symbol_scope_id(symbol))
}

/// Adds the symbols that are in use for what they are.
fn add_sure(symbols: &mut Vec<u32>, scoping: &Scoping) -> Result<(), AllocError>
    ensures { OnOk result (symbols.new.items
        ≡ symbols.old.items ++ sure_from scoping.now 0 scoping.now.symbols) }
{
    let count = scoping.symbols_len() as u32;
    for number in 0..count {
        if is_sure(scoping, SymbolId::new(number)) {
            symbols.push(number)?;
        }
    }
    Ok(())
}

/// Adds the symbols that the nodes declare.
fn add_declared(
    symbols: &mut Vec<u32>,
    nodes: &[NodeId],
    tables: &NodeTables,
) -> Result<(), AllocError>
    ensures { OnOk result (symbols.new.items
        ≡ symbols.old.items ++ filter_map (symbol_at_node tables.now) nodes.now) }
{
    for node in nodes {
        if let Some(symbol) = tables.symbol_of(*node) {
            symbols.push(symbol.index() as u32)?;
        }
    }
    Ok(())
}

/// The symbols that are in use whatever else is: sure ones, those that exported nodes declare, and those that are used
/// outside of declarations.
fn live_at_once(
    alloc: Global,
    scoping: &Scoping,
    tables: &NodeTables,
    exported: &[NodeId],
    free: &[u32],
) -> Result<Vec<u32>, AllocError>
    ensures { IfOk result (λ symbols. symbols.items
        ≡ sure_from scoping.now 0 scoping.now.symbols
        ++ filter_map (symbol_at_node tables.now) exported.now ++ free.now) }
{
    let mut symbols = Vec::new(alloc);
    add_sure(&mut symbols, scoping)?;
    add_declared(&mut symbols, exported, tables)?;
    symbols.extend_from_slice(free)?;
    Ok(symbols)
}

/// Which symbols are in use, where exports bind these nodes and the references have these owners.
fn live_marks(
    alloc: Global,
    scoping: &Scoping,
    tables: &NodeTables,
    exported: &[NodeId],
    owners: &[Option<SymbolId>],
) -> Result<Vec<bool>, AllocError>
    requires { OwnersAreSymbols scoping.now (symbol_at_node tables.now) exported.now owners.now }
    ensures length { IfOk result (λ marks. length marks.items ≡ length scoping.now.symbols) }
    ensures sound { IfOk result (λ marks. (s : ℕ) → is_marked marks.items s ≡ true
        → LiveIn scoping.now (symbol_at_node tables.now) exported.now owners.now s) }
    ensures complete { IfOk result (λ marks. (s : ℕ)
        → LiveIn scoping.now (symbol_at_node tables.now) exported.now owners.now s
        → is_marked marks.items s ≡ true) }
{
    let uses = ReferenceUses::of(alloc, scoping, owners)?;
    let seeds = live_at_once(alloc, scoping, tables, exported, &uses.free)?;
    let rows = rows_of(alloc, scoping.symbols_len(), &uses.owned)?;
    reached(alloc, &rows, &seeds)
}

/// The symbols whose marks aren't set, ascending.
fn unmarked(alloc: Global, marks: &[bool]) -> Result<Vec<SymbolId>, AllocError>
    requires { length marks.now < 4294967296 }
    ensures { IfOk result (λ symbols. symbols.items ≡ unmarked_from 0 marks.now) }
{
    let mut symbols = Vec::new(alloc);
    for (number, mark) in marks.iter().enumerate() {
        if !*mark {
            symbols.push(SymbolId::new(number as u32))?;
        }
    }
    Ok(symbols)
}

/// The symbols that are not in use, ascending, where exports bind these nodes and the references have these owners.
pub fn unused_symbols(
    alloc: Global,
    scoping: &Scoping,
    tables: &NodeTables,
    exported: &[NodeId],
    owners: &[Option<SymbolId>],
) -> Result<SymbolIdList, AllocError>
    requires { OwnersAreSymbols scoping.now (symbol_at_node tables.now) exported.now owners.now }
    ensures { IfOk result (λ unused.
        AreOutsideSet (length scoping.now.symbols)
        (LiveIn scoping.now (symbol_at_node tables.now) exported.now owners.now) unused) }
{
    let marks = live_marks(alloc, scoping, tables, exported, owners)?;
    let _count = scoping.symbols_len();
    let unused = unmarked(alloc, &marks)?;
    Ok(SymbolIdList::new(unused))
}
