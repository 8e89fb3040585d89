//! The proposal: a new name for each symbol that changes.
ghost use Rattle.std.specs.Prelude.{◌<◌, length};

use crate::alive::alive_symbols;
use crate::barred::add_free_names;
use crate::good_names::is_reserved;
use crate::naming::name_of;
use crate::new_names::NewNames;
use crate::numbers::{NONE, at, is_marked, lists, push_at, set};
use crate::order::{key_of, number_of};
use crate::slots::{Plan, Slots, slots_of};
use crate::staying::{hiders, staying_symbols};
use crate::uses::{Tables, count_at, extra_of, uses_of};
use name_sets::NameSet;
use scoping::{NodeTables, Scoping};
use semantic_syntax::SymbolId;
use semantic_tree::Program;
use std::alloc::{AllocError, Global};

/// How often names are chosen anew, without the symbols for which they cost more than they save.
const ROUNDS: usize = 4;

/// The symbols that belong to each scope.
fn own_symbols(alloc: Global, scoping: &Scoping) -> Result<Vec<Vec<usize>>, AllocError> {
    let mut own = lists(alloc, scoping.scopes_len())?;
    for number in 0..(scoping.symbols_len() as u32) {
        let home = scoping.symbol_scope_id(SymbolId::new(number));
        push_at(&mut own, home.index(), number as usize)?;
    }
    Ok(own)
}

/// Keeps the symbols that hide others that stay, and those that such symbols hide.
fn keep_together(hiders: &[usize], stays: &mut Vec<bool>) {
    for number in 0..hiders.len() {
        let other = at(hiders, number);
        if other != NONE && (is_marked(stays, number) || is_marked(stays, other)) {
            set(stays, number);
            set(stays, other);
        }
    }
}

/// Adds the names of symbols that stay.
fn add_staying(
    alloc: Global,
    taken: &mut NameSet,
    scoping: &Scoping,
    stays: &[bool],
) -> Result<(), AllocError> {
    for number in 0..(scoping.symbols_len() as u32) {
        if is_marked(stays, number as usize) {
            taken.add(alloc, scoping.symbol_name(SymbolId::new(number)))?;
        }
    }
    Ok(())
}

/// A short name with its number.
#[derive(Drop)]
struct Short {
    number: usize,
    name: String,
}

/// The next short name from a number on that is neither taken nor reserved.
fn next_free(alloc: Global, taken: &NameSet, from: usize) -> Result<Short, AllocError> {
    for number in from..NONE {
        let name = name_of(alloc, number)?;
        if !is_reserved(name.as_str()) && !taken.has(name.as_str()) {
            return Ok(Short { number, name });
        }
    }
    Ok(Short {
        number: NONE,
        name: String::new(alloc),
    })
}

/// The slots, those that stand most often first.
fn sorted_slots(alloc: Global, slots: &Slots) -> Result<Vec<u64>, AllocError> {
    let mut keys = Vec::new(alloc);
    for slot in 0..slots.weights.len() {
        keys.push(key_of(at(slots.weights.as_slice(), slot), slot))?;
    }
    keys.sort()?;
    Ok(keys)
}

/// So many empty names.
fn no_names(alloc: Global, count: usize) -> Result<Vec<String>, AllocError> {
    let mut names = Vec::new(alloc);
    for _ in 0..count {
        names.push(String::new(alloc))?;
    }
    Ok(names)
}

/// The names of slots, shortest for those that stand most often. They are neither taken nor reserved.
fn names_for(alloc: Global, taken: &NameSet, slots: &Slots) -> Result<Vec<String>, AllocError> {
    let mut names = no_names(alloc, slots.weights.len())?;
    let mut next = 0;
    for key in sorted_slots(alloc, slots)?.as_slice() {
        let short = next_free(alloc, taken, next)?;
        next = short.number.saturating_add(1);
        match names.get_mut(number_of(*key)) {
            Some(entry) => *entry = short.name,
            None => {}
        }
    }
    Ok(names)
}

/// Whether the name would cost more than it saves at the symbol.
fn costs_more(plan: &Plan<'_>, symbol: SymbolId, name: &str) -> bool
    requires { symbol < length plan.now.scoping.now.symbols }
{
    let count = count_at(plan.uses, symbol.index());
    let extra = extra_of(plan.uses, symbol.index());
    let old = count.saturating_mul(plan.scoping.symbol_name(symbol).len());
    extra > 0 && count.saturating_mul(name.len()).saturating_add(extra) > old
}

/// Keeps the symbols for which their new names would cost more, and says whether there are any.
fn keep_costly(plan: &Plan<'_>, slots: &Slots, names: &[String], stays: &mut Vec<bool>) -> bool {
    let mut found = false;
    for number in 0..(plan.scoping.symbols_len() as u32) {
        let slot = at(slots.of_symbols.as_slice(), number as usize);
        if let Some(name) = names.get(slot) {
            if costs_more(plan, SymbolId::new(number), name.as_str()) {
                set(stays, number as usize);
                found = true;
            }
        }
    }
    found
}

/// Adds the new name of a symbol, unless it is the old one.
fn push_name(
    alloc: Global,
    into: &mut NewNames,
    name: Option<&String>,
    old: &str,
) -> Result<(), AllocError> {
    match name {
        Some(name) => {
            if name.as_str() == old {
                into.push_none()
            } else {
                into.push(alloc, name.as_str())
            }
        }
        None => into.push_none(),
    }
}

/// The name of its slot for each symbol.
fn given(
    alloc: Global,
    scoping: &Scoping,
    slots: &Slots,
    names: &[String],
) -> Result<NewNames, AllocError> {
    let mut all = NewNames::new(alloc);
    for number in 0..(scoping.symbols_len() as u32) {
        let name = names.get(at(slots.of_symbols.as_slice(), number as usize));
        push_name(
            alloc,
            &mut all,
            name,
            scoping.symbol_name(SymbolId::new(number)),
        )?;
    }
    Ok(all)
}

/// The names of one round, and whether some cost more than they save.
#[derive(Drop)]
struct Round {
    names: NewNames,
    is_costly: bool,
}

/// Chooses names. The symbols for which they cost more stay from then on.
fn choose(alloc: Global, plan: &Plan<'_>, stays: &mut Vec<bool>) -> Result<Round, AllocError> {
    keep_together(plan.hiders, stays);
    let slots = slots_of(alloc, plan, stays.as_slice())?;
    let mut taken = NameSet::new(alloc);
    add_free_names(alloc, &mut taken, plan.scoping)?;
    add_staying(alloc, &mut taken, plan.scoping, stays.as_slice())?;
    let names = names_for(alloc, &taken, &slots)?;
    let is_costly = keep_costly(plan, &slots, names.as_slice(), stays);
    Ok(Round {
        names: given(alloc, plan.scoping, &slots, names.as_slice())?,
        is_costly,
    })
}

/// Chooses names in rounds.
fn choose_all(
    alloc: Global,
    plan: &Plan<'_>,
    stays: &mut Vec<bool>,
) -> Result<NewNames, AllocError> {
    for _ in 1..ROUNDS {
        let round = choose(alloc, plan, stays)?;
        if !round.is_costly {
            return Ok(round.names);
        }
    }
    let last = choose(alloc, plan, stays)?;
    Ok(last.names)
}

/// A new name for each symbol that gets one, of those that may change.
pub fn proposed(
    alloc: Global,
    program: &Program,
    scoping: &Scoping,
    nodes: &NodeTables,
    may: &[bool],
) -> Result<NewNames, AllocError> {
    let uses = uses_of(alloc, program, &Tables { scoping, nodes })?;
    let alive = alive_symbols(alloc, scoping, uses.as_slice())?;
    let own = own_symbols(alloc, scoping)?;
    let hiders = hiders(alloc, scoping)?;
    let mut stays = staying_symbols(alloc, scoping, uses.as_slice(), may)?;
    let plan = Plan {
        scoping,
        uses: uses.as_slice(),
        own: own.as_slice(),
        alive: alive.as_slice(),
        hiders: hiders.as_slice(),
    };
    choose_all(alloc, &plan, &mut stays)
}
