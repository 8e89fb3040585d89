//! The first slots of a scope's bindings.
ghost use Rattle.std.specs.Prelude.{◌≡◌, ◌++◌, ◌<◌, [], ◌∷◌, length, not, ◌==◌, take, map, slice_index_or, slice_set};
ghost use Rattle.std.specs.List.{prefix_len};
ghost use Rattle.scoping_rows.specs.Flat.{near, IsNearPlace};
ghost use Rattle.scoping_rows.specs.Slots.{stored_slot};

use semantic_syntax::SymbolId;
use std::marker::Model;
use std::simd::prelude::*;

/// How many slots of a scope lie in the scope itself.
pub const NEAR: usize = 8;

/// The number of an empty slot.
pub const NO_NUMBER: u32 = u32::MAX;

/// The first slots of a scope, each with a number and a symbol. The numbers lie side by side, so that one comparison
/// takes them all.
#[derive(Drop)]
pub struct NearSlots {
    count: usize,
    numbers: [u32; 8],
    symbols: [SymbolId; 8],
}

impl Model for NearSlots {
    ghost use Rattle.std.specs.Prelude.{ℕ, List};
    ghost use Rattle.scoping_rows.specs.Slots.{paired, ArePaired};

    ghost Value = { List (ℕ × ℕ) };

    ghost view = { λ a. paired a.count a.numbers a.symbols };

    ghost invariant = { λ a. ArePaired a.count a.numbers a.symbols };
}

/// How many of the numbers come before the first that is the number.
#[inline(always)]
fn first_of(numbers: [u32; 8], number: u32) -> usize
    requires { length numbers ≡ 8 }
    ensures { result ≡ prefix_len (λ x. not (x == number)) numbers }
{
    let hits = u32x8::from_array(numbers)
        .simd_eq(u32x8::splat(number))
        .to_bitmask();
    if hits == 0 {
        NEAR
    } else {
        hits.trailing_zeros() as usize
    }
}

impl NearSlots {
    /// No slots.
    pub fn new() -> NearSlots
        ensures { result ≡ [] }
    {
        NearSlots {
            count: 0,
            numbers: [0; 8],
            symbols: [SymbolId::new(0); 8],
        }
    }

    /// The same slots.
    pub fn copied(&self) -> NearSlots
        ensures { result ≡ self.now }
    {
        NearSlots {
            count: self.count,
            numbers: self.numbers,
            symbols: self.symbols,
        }
    }

    /// How many slots there are.
    pub fn len(&self) -> usize
        ensures { result ≡ length self.now }
    {
        self.count
    }

    /// What the slot at the position has.
    pub fn get(&self, position: usize) -> (u32, SymbolId)
        requires { position < length self.now }
        ensures { result ≡ slice_index_or self.now position (0, 0) }
    {
        let _count = self.count;
        (self.numbers[position], self.symbols[position])
    }

    /// The position of the first slot that binds the number.
    #[inline(always)]
    pub fn position_of(&self, number: usize) -> Option<usize>
        ensures { IsNearPlace (map stored_slot self.now) number result }
    {
        let count = self.count;
        if number >= NO_NUMBER as usize {
            return None;
        }
        let position = first_of(self.numbers, number as u32);
        if position < count {
            Some(position)
        } else {
            None
        }
    }

    /// Makes the slot have the number and the symbol.
    pub fn put(&mut self, position: usize, number: u32, symbol: SymbolId)
        requires { position < length self.old }
        ensures { self.new ≡ slice_set self.old position (number, symbol) }
    {
        let _count = self.count;
        self.numbers[position] = number;
        self.symbols[position] = symbol;
    }

    /// Adds a slot, where there is room for it.
    pub fn push(&mut self, number: u32, symbol: SymbolId)
        requires { length self.old < near }
        ensures { self.new ≡ self.old ++ (number, symbol) ∷ [] }
    {
        let position = self.count;
        self.numbers[position] = number;
        self.symbols[position] = symbol;
        self.count = position + 1;
    }

    /// Drops the slots from the position on.
    pub fn truncate(&mut self, position: usize)
        ensures { self.new ≡ take position self.old }
    {
        self.count = self.count.min(position);
    }
}
