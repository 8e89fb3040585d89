//! The slots of one scope's bindings.
ghost use Rattle.std.specs.Prelude.{ℕ, ◌≡◌, ◌<◌, ◌≤◌, ◌==◌, ◌++◌, [], ◌∷◌, take, drop, length, slice_index_or, slice_set, MatchOption, None, Some, OnOk, OnErr};
ghost use Rattle.std.specs.Map.Iter.{TakesFirst};
ghost use Rattle.std.specs.Iterator.{at_most};
ghost use Rattle.std.specs.Option.{option_to_list};
ghost use Rattle.scoping_rows.specs.Slots.{no_number, stored_slot};
ghost use Rattle.scoping_rows.specs.Flat.{filled, far, IsNearPlace, IsNextBound};

use crate::near_slots::{NEAR, NO_NUMBER, NearSlots};
use semantic_syntax::SymbolId;
use std::alloc::{AllocError, Global};
use std::marker::Model;

/// What one scope binds, in the order of binding, each number with its symbol in a slot. What is unbound leaves
/// its slot empty, so that the others keep their positions. Most scopes have few slots, which lie in the scope
/// itself; the others have a block of memory.
#[derive(Drop)]
pub struct ScopeSlots {
    near: NearSlots,
    far: Vec<(u32, SymbolId)>,
    empty: usize,
}

impl Model for ScopeSlots {
    ghost use Rattle.std.specs.Prelude.{ℕ, List, Option, map, ◌++◌};
    ghost use Rattle.scoping_rows.specs.Slots.{stored_slot, AreStored};

    ghost Value = { List (Option (ℕ × ℕ)) };

    ghost view = { λ a. map stored_slot (a.near ++ a.far.items) };

    ghost invariant = { λ a. AreStored a.near a.far.items a.empty };
}

/// What a slot binds that is stored so.
fn slot_bound(number: u32, symbol: SymbolId) -> Option<(usize, SymbolId)>
    ensures { result ≡ stored_slot (number, symbol) }
{
    if number == NO_NUMBER {
        None
    } else {
        Some((number as usize, symbol))
    }
}

/// The number as it is stored. There are none that are larger.
#[inline(always)]
fn stored(number: usize) -> Option<u32>
    ensures { MatchOption result (no_number ≤ number) (λ k. (k ≡ number) × (k < no_number)) }
{
    if number < NO_NUMBER as usize {
        Some(number as u32)
    } else {
        None
    }
}

/// How many numbers a slot binds that is stored so.
fn count_bound(number: u32, symbol: SymbolId) -> usize
    ensures { result ≡ length (option_to_list (stored_slot (number, symbol))) }
{
    if number == NO_NUMBER { 0 } else { 1 }
}

impl ScopeSlots {
    /// No slots.
    pub fn new(alloc: Global) -> ScopeSlots
        ensures { result ≡ [] }
    {
        ScopeSlots {
            near: NearSlots::new(),
            far: Vec::new(alloc),
            empty: 0,
        }
    }

    /// How many slots there are.
    pub fn len(&self) -> usize
        ensures { result ≡ length self.now }
    {
        self.near.len() + self.far.len()
    }

    /// How many of them are filled.
    pub fn bound_len(&self) -> usize
        ensures { result ≡ length (filled self.now) }
    {
        self.len() - self.empty
    }

    /// Whether most of them are empty.
    pub fn is_sparse(&self) -> bool {
        self.empty > self.len() / 2
    }

    /// The slot at the position, as it is stored.
    fn pair(&self, position: usize) -> (u32, SymbolId)
        requires { position < length self.now }
        ensures { stored_slot result ≡ slice_index_or self.now position None }
    {
        let near = self.near.len();
        if position < near {
            self.near.get(position)
        } else {
            self.far[position - near]
        }
    }

    /// What the slot at the position binds.
    pub fn get(&self, position: usize) -> Option<(usize, SymbolId)>
        ensures { result ≡ slice_index_or self.now position None }
    {
        if position >= self.len() {
            return None;
        }
        let (number, symbol) = self.pair(position);
        slot_bound(number, symbol)
    }

    /// The position of the number's slot, if it is one of the first.
    #[inline(always)]
    pub fn near_position(&self, number: usize) -> Option<usize>
        ensures { IsNearPlace self.now number result }
    {
        self.near.position_of(number)
    }

    /// What the slot at the position binds, if it isn't one of the first.
    pub fn far(&self, position: usize) -> Option<(usize, SymbolId)>
        ensures { result ≡ slice_index_or (far self.now) position None }
    {
        if position < NEAR {
            return None;
        }
        self.get(position)
    }

    /// Adds a slot that binds the number to the symbol. Numbers from 4,294,967,295 on have no room.
    pub fn push(&mut self, number: usize, symbol: SymbolId) -> Result<(), AllocError>
        ensures ok { OnOk result (self.new ≡ self.old ++ Some (number, symbol) ∷ []) }
        ensures err { OnErr result (self.new ≡ self.old) }
    {
        let number = match stored(number) {
            Some(number) => number,
            None => return Err(AllocError),
        };
        if self.near.len() < NEAR {
            self.near.push(number, symbol);
            return Ok(());
        }
        self.far.push((number, symbol))?;
        Ok(())
    }

    /// Stores the slot at the position.
    fn put(&mut self, position: usize, number: u32, symbol: SymbolId)
        requires { position < length self.old }
        ensures { self.new ≡ slice_set self.old position (stored_slot (number, symbol)) }
    {
        let (was, of) = self.pair(position);
        self.empty = self.empty + count_bound(was, of) - count_bound(number, symbol);
        let near = self.near.len();
        if position < near {
            self.near.put(position, number, symbol);
        } else {
            self.far[position - near] = (number, symbol);
        }
    }

    /// Makes the slot bind its number to the symbol. An empty one stays so.
    pub fn rebind(&mut self, position: usize, symbol: SymbolId)
        requires { position < length self.old }
        ensures { (n y : ℕ) → slice_index_or self.old position None ≡ Some (n, y)
            → self.new ≡ slice_set self.old position (Some (n, symbol)) }
    {
        let (number, _) = self.pair(position);
        self.put(position, number, symbol);
    }

    /// Empties the slot.
    pub fn clear(&mut self, position: usize)
        requires { position < length self.old }
        ensures { self.new ≡ slice_set self.old position None }
    {
        let (_, symbol) = self.pair(position);
        self.put(position, NO_NUMBER, symbol);
    }

    /// Empties one slot, and makes the other bind what that one bound.
    pub fn relocate(&mut self, from: usize, to: usize)
        requires from { from < length self.old }
        requires to { to < length self.old }
        ensures { self.new ≡ slice_set (slice_set self.old from None) to
            (slice_index_or self.old from None) }
    {
        let (number, symbol) = self.pair(from);
        self.put(from, NO_NUMBER, symbol);
        self.put(to, number, symbol);
    }

    /// Drops the slots from the position on, which are empty.
    pub fn truncate(&mut self, position: usize)
        requires { filled (take position self.old) ≡ filled self.old }
        ensures { self.new ≡ take position self.old }
    {
        self.empty -= self.len().saturating_sub(position);
        self.far.truncate(position.saturating_sub(self.near.len()));
        self.near.truncate(position);
    }

    /// What the slots bind.
    pub fn iter(&self) -> BoundIter<'_>
        ensures { result ≡ filled self.now }
    {
        BoundIter {
            slots: self,
            position: 0,
            left: self.bound_len(),
        }
    }

    /// What the first slot from the position on binds that binds something, and the position behind it.
    fn next_bound(&self, start: usize) -> Option<(usize, (usize, SymbolId))>
        ensures { IsNextBound self.now start result }
    {
        for position in start..self.len() {
            if let Some(bound) = self.get(position) {
                return Some((position + 1, bound));
            }
        }
        None
    }
}

impl Clone for ScopeSlots {
    ghost is_clone = { λ t u. u ≡ t };

    fn clone(&self) -> Result<ScopeSlots, AllocError> {
        Ok(ScopeSlots {
            near: self.near.copied(),
            far: self.far.clone()?,
            empty: self.empty,
        })
    }
}

/// The numbers with their symbols that are left.
#[derive(Drop)]
pub struct BoundIter<'s> {
    slots: &'s ScopeSlots,
    position: usize,
    left: usize,
}

impl<'s> Model for BoundIter<'s> {
    ghost use Rattle.std.specs.Prelude.{ℕ, List, ◌≡◌, length, drop};

    ghost Value = { List (ℕ × ℕ) };

    ghost use Rattle.scoping_rows.specs.Flat.{filled};

    ghost view = { λ a. filled (drop a.position a.slots.now) };

    ghost invariant = { λ a. a.left ≡ length (filled (drop a.position a.slots.now)) };
}

impl<'s> BoundIter<'s> {
    /// How many are left.
    pub fn len(&self) -> usize
        ensures { result ≡ length self.now }
    {
        self.left
    }
}

impl<'s> Iterator for BoundIter<'s> {
    type Item = (usize, SymbolId);

    ghost next_gives = { TakesFirst (λ p. p) };

    ghost remaining = { λ s. at_most (length s) };

    fn next(&mut self) -> Option<(usize, SymbolId)> {
        let (position, bound) = self.slots.next_bound(self.position)?;
        self.position = position;
        self.left -= 1;
        Some(bound)
    }
}
