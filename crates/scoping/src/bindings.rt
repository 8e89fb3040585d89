//! What one scope binds.
ghost use Rattle.std.specs.Prelude.{◌≡◌, ◌<◌, ◌==◌, ℕ, length, map, slice_index_or, []};
ghost use Rattle.std.specs.Iterator.{at_most};
ghost use Rattle.std.specs.List.{AllByRecursion, IsDistinct};
ghost use Rattle.std.specs.Map.Iter.{TakesFirst};
ghost use Rattle.std.specs.Map.{lookup, values_of};
ghost use Rattle.std.specs.Str.{bytes_eq};
ghost use Rattle.scoping_rows.specs.Names.{name_of, named, pair_of};
ghost use Rattle.scoping.specs.Numbering.{numbered_from};

use scoping_rows::binding_table::BindingTable;
use scoping_rows::name_table::NameTable;
use scoping_rows::scope_slots::BoundIter;
use semantic_syntax::{Ident, ScopeId, SymbolId};
use std::marker::Model;

/// What one scope binds, in the order of binding.
#[derive(Drop)]
pub struct Bindings<'s> {
    names: &'s NameTable,
    table: &'s BindingTable,
    scope: ScopeId,
}

impl<'s> Model for Bindings<'s> {
    ghost use Rattle.std.specs.Prelude.{ℕ, List, ◌<◌, length, slice_index_or, []};
    ghost use Rattle.std.specs.List.{AllByRecursion};
    ghost use Rattle.scoping_rows.specs.Names.{named};

    ghost Value = { List (List ℕ × ℕ) };

    ghost view = { λ b. named b.names.now (slice_index_or b.table.now b.scope []) };

    ghost invariant = { λ b. (b.scope < length b.table.now) × AllByRecursion (λ (e : ℕ × ℕ). e.0 < length b.names.now) (slice_index_or b.table.now b.scope []) };
}

impl<'s> Bindings<'s> {
    pub(crate) fn new(names: &'s NameTable, table: &'s BindingTable, scope: ScopeId) -> Bindings<'s>
        requires scope { scope < length table.now }
        requires known { AllByRecursion (λ (e : ℕ × ℕ). e.0 < length names.now)
            (slice_index_or table.now scope []) }
        ensures { result ≡ named names.now (slice_index_or table.now scope []) }
    {
        Bindings {
            names,
            table,
            scope,
        }
    }

    /// The symbol that the name is bound to.
    pub fn get(&self, name: Ident<'_>) -> Option<SymbolId>
        ensures { result ≡ lookup (bytes_eq (name_of name.entry)) self.now }
    {
        let number = self.names.find(name)?;
        self.table.get(self.scope, number)
    }

    /// The pairs, in the order of binding.
    pub fn iter(&self) -> BindingsIter<'s>
        ensures { result ≡ self.now }
    {
        BindingsIter {
            names: self.names,
            bound: self.table.iter(self.scope),
        }
    }

    /// How many pairs there are.
    pub fn len(&self) -> usize
        ensures { result ≡ length self.now }
    {
        self.table.bound_len(self.scope)
    }

    /// Whether there are none.
    pub fn is_empty(&self) -> bool
        ensures { result ≡ (length self.now == 0) }
    {
        self.len() == 0
    }
}

/// The pairs of a name and its symbol that are left.
#[derive(Drop)]
pub struct BindingsIter<'s> {
    names: &'s NameTable,
    bound: BoundIter<'s>,
}

impl<'s> Model for BindingsIter<'s> {
    ghost use Rattle.std.specs.Prelude.{ℕ, List};
    ghost use Rattle.semantic_syntax.specs.Tables.{Name};

    ghost Value = { List (Name × ℕ) };

    ghost use Rattle.scoping.specs.Left.{pairs_left, ArePairsLeft};

    ghost view = { pairs_left };

    ghost invariant = { ArePairsLeft };
}

impl<'s> Iterator for BindingsIter<'s> {
    type Item = (Ident<'s>, SymbolId);

    ghost next_gives = { TakesFirst pair_of };

    ghost remaining = { λ s. at_most (length s) };

    fn next(&mut self) -> Option<(Ident<'s>, SymbolId)> {
        let (number, symbol) = self.bound.next()?;
        Some((Ident::new(self.names.name(number)), symbol))
    }
}

/// The symbols that a scope binds, in the order of binding, that are left.
#[derive(Drop)]
pub struct BoundSymbols<'s> {
    bound: BoundIter<'s>,
}

impl<'s> Model for BoundSymbols<'s> {
    ghost use Rattle.std.specs.Prelude.{ℕ, List};

    ghost Value = { List ℕ };

    ghost use Rattle.std.specs.Map.{values_of};

    ghost view = { λ a. values_of a.bound };
}

impl<'s> BoundSymbols<'s> {
    pub(crate) fn new(table: &'s BindingTable, scope: ScopeId) -> BoundSymbols<'s>
        requires { scope < length table.now }
        ensures { result ≡ values_of (slice_index_or table.now scope []) }
    {
        BoundSymbols {
            bound: table.iter(scope),
        }
    }

    /// How many are left.
    pub fn len(&self) -> usize
        ensures { result ≡ length self.now }
    {
        self.bound.len()
    }
}

impl<'s> Iterator for BoundSymbols<'s> {
    type Item = SymbolId;

    ghost next_gives = { TakesFirst (λ y. y) };

    ghost remaining = { λ s. at_most (length s) };

    fn next(&mut self) -> Option<SymbolId> {
        let (_, symbol) = self.bound.next()?;
        Some(symbol)
    }
}

/// The scopes with what they bind that are left.
#[derive(Drop)]
pub struct AllBindings<'s> {
    names: &'s NameTable,
    table: &'s BindingTable,
    next: usize,
    left: usize,
}

impl<'s> Model for AllBindings<'s> {
    ghost use Rattle.std.specs.Prelude.{ℕ, List};
    ghost use Rattle.semantic_syntax.specs.Tables.{Bindings};

    ghost Value = { List (ℕ × Bindings) };

    ghost use Rattle.scoping.specs.Left.{scopes_left, AreScopesLeft};

    ghost view = { scopes_left };

    ghost invariant = { AreScopesLeft };
}

impl<'s> AllBindings<'s> {
    pub(crate) fn new(
        names: &'s NameTable,
        table: &'s BindingTable,
        count: usize,
    ) -> AllBindings<'s>
        requires count { count ≡ length table.now }
        requires fits { count < 4294967296 }
        requires known { AllByRecursion
            (AllByRecursion (λ (e : ℕ × ℕ). e.0 < length names.now)) table.now }
        ensures { result ≡ numbered_from 0 (map (named names.now) table.now) }
    {
        AllBindings {
            names,
            table,
            next: 0,
            left: count,
        }
    }

    /// How many are left.
    pub fn len(&self) -> usize
        ensures { result ≡ length self.now }
    {
        self.left
    }
}

impl<'s> Iterator for AllBindings<'s> {
    type Item = (ScopeId, Bindings<'s>);

    ghost next_gives = { TakesFirst (λ p. p) };

    ghost remaining = { λ s. at_most (length s) };

    fn next(&mut self) -> Option<(ScopeId, Bindings<'s>)> {
        if self.left == 0 {
            return None;
        }
        let scope = ScopeId::new(self.next as u32);
        let bindings = Bindings::new(self.names, self.table, scope);
        self.next += 1;
        self.left -= 1;
        Some((scope, bindings))
    }
}
