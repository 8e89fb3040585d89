//! Slots for symbols: no two that are alive in one scope share one.
ghost use Rattle.std.specs.Prelude.{◌<◌, length};

use crate::numbers::{NONE, at, filled, is_marked, put};
use crate::order::{key_of, number_of};
use crate::uses::{Uses, count_at};
use scoping::Scoping;
use semantic_syntax::{ScopeFlags, ScopeId};
use std::alloc::{AllocError, Global};

/// What slots are given by.
#[derive(Clone, Copy)]
pub struct Plan<'a> {
    pub scoping: &'a Scoping,
    pub uses: &'a [Uses],
    /// The symbols that belong to each scope.
    pub own: &'a [Vec<usize>],
    /// The symbols that are alive in each scope, but for those.
    pub alive: &'a [Vec<usize>],
    /// The symbols that hide each symbol.
    pub hiders: &'a [usize],
}

/// The slots of symbols, and of each slot the last scope in which it is taken and how often its names stand.
#[derive(Drop)]
pub struct Slots {
    pub of_symbols: Vec<usize>,
    pub weights: Vec<usize>,
    taken: Vec<usize>,
}

/// Takes the slots of what is alive in the one scope for the other.
fn take_alive(plan: &Plan<'_>, slots: &mut Slots, from: usize, scope: usize) {
    let Some(symbols) = plan.alive.get(from) else {
        return;
    };
    for symbol in symbols.as_slice() {
        let slot = at(&slots.of_symbols, *symbol);
        put(&mut slots.taken, slot, scope);
    }
}

/// The number of the catch clause whose body the scope is, if any: it takes over the clause's parameters.
fn clause_around(scoping: &Scoping, scope: ScopeId) -> usize
    requires { scope < length scoping.now.scopes }
{
    match scoping.scope_parent_id(scope) {
        Some(parent) => {
            if parent.index() < scoping.scopes_len()
                && scoping
                    .scope_flags(parent)
                    .intersects(ScopeFlags::CatchClause)
            {
                parent.index()
            } else {
                NONE
            }
        }
        None => NONE,
    }
}

/// The least slot from one on that isn't taken in the scope.
fn free_slot(slots: &Slots, from: usize, scope: usize) -> usize {
    for slot in from..slots.taken.len() {
        if at(&slots.taken, slot) != scope {
            return slot;
        }
    }
    slots.taken.len()
}

/// Adds to the weight of a slot.
fn weigh(slots: &mut Slots, slot: usize, count: usize) {
    let weight = at(&slots.weights, slot).saturating_add(count);
    put(&mut slots.weights, slot, weight);
}

/// Gives the slot to the symbol, which belongs to the scope.
fn give(
    plan: &Plan<'_>,
    slots: &mut Slots,
    symbol: usize,
    slot: usize,
    scope: usize,
) -> Result<(), AllocError> {
    if slot >= slots.taken.len() {
        slots.taken.push(NONE)?;
        slots.weights.push(0)?;
    }
    put(&mut slots.of_symbols, symbol, slot);
    put(&mut slots.taken, slot, scope);
    weigh(slots, slot, count_at(plan.uses, symbol));
    Ok(())
}

/// The symbols that get slots of their own, by falling number of their uses.
fn keys_of(
    alloc: Global,
    plan: &Plan<'_>,
    stays: &[bool],
    symbols: &[usize],
) -> Result<Vec<u64>, AllocError> {
    let mut keys = Vec::new(alloc);
    for symbol in symbols {
        if !is_marked(stays, *symbol) && at(plan.hiders, *symbol) == NONE {
            keys.push(key_of(count_at(plan.uses, *symbol), *symbol))?;
        }
    }
    keys.sort()?;
    Ok(keys)
}

/// Gives slots to the symbols of the scope.
fn give_all(
    alloc: Global,
    plan: &Plan<'_>,
    slots: &mut Slots,
    stays: &[bool],
    scope: usize,
) -> Result<(), AllocError> {
    let Some(symbols) = plan.own.get(scope) else {
        return Ok(());
    };
    let keys = keys_of(alloc, plan, stays, symbols.as_slice())?;
    let mut next = 0;
    for key in keys.as_slice() {
        next = free_slot(slots, next, scope);
        give(plan, slots, number_of(*key), next, scope)?;
    }
    Ok(())
}

/// Gives a symbol that another one hides the slot of that one.
fn follow(plan: &Plan<'_>, slots: &mut Slots, symbol: usize) {
    let other = at(plan.hiders, symbol);
    let slot = at(&slots.of_symbols, other);
    if other == NONE || slot == NONE {
        return;
    }
    put(&mut slots.of_symbols, symbol, slot);
    weigh(slots, slot, count_at(plan.uses, symbol));
}

/// Gives the symbols that are hidden their slots.
fn follow_all(plan: &Plan<'_>, slots: &mut Slots, stays: &[bool]) {
    for symbol in 0..plan.hiders.len() {
        if !is_marked(stays, symbol) {
            follow(plan, slots, symbol);
        }
    }
}

/// Slots for the symbols that change, in scopes from the root down.
pub fn slots_of(alloc: Global, plan: &Plan<'_>, stays: &[bool]) -> Result<Slots, AllocError> {
    let mut slots = Slots {
        of_symbols: filled(alloc, plan.scoping.symbols_len(), NONE)?,
        weights: Vec::new(alloc),
        taken: Vec::new(alloc),
    };
    for number in 0..(plan.scoping.scopes_len() as u32) {
        let scope = ScopeId::new(number);
        take_alive(plan, &mut slots, scope.index(), scope.index());
        let clause = clause_around(plan.scoping, scope);
        take_alive(plan, &mut slots, clause, scope.index());
        give_all(alloc, plan, &mut slots, stays, scope.index())?;
    }
    follow_all(plan, &mut slots, stays);
    Ok(slots)
}
