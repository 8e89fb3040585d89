//! The symbols, one after the other.
ghost use Rattle.std.specs.Prelude.{◌≡◌, ◌+◌, ◌<◌, ◌++◌, length, map};
ghost use Rattle.std.specs.Iterator.{at_most};
ghost use Rattle.std.specs.List.{AllByRecursion, range_with_len};
ghost use Rattle.std.specs.Option.{option_to_list};
ghost use Rattle.std.specs.Map.Iter.{TakesFirst};
ghost use Rattle.std.specs.Str.{chars};
ghost use Rattle.scoping_rows.specs.Names.{name_at};
ghost use Rattle.scoping_rows.specs.Row.{Row};

use scoping_rows::name_table::NameTable;
use scoping_rows::symbol_row::SymbolRow;
use semantic_syntax::{NodeId, Redeclaration, SymbolId};
use std::marker::Model;
use std::slice::Iter;

/// The names of the symbols that are left.
#[derive(Drop)]
pub struct SymbolNames<'s> {
    names: &'s NameTable,
    rows: Iter<'s, SymbolRow>,
}

impl<'s> Model for SymbolNames<'s> {
    ghost use Rattle.std.specs.Prelude.{List};
    ghost use Rattle.semantic_syntax.specs.Tables.{Name};

    ghost Value = { List Name };

    ghost use Rattle.scoping.specs.Left.{names_left, AreNamesLeft};

    ghost view = { names_left };

    ghost invariant = { AreNamesLeft };
}

impl<'s> SymbolNames<'s> {
    pub(crate) fn new(names: &'s NameTable, rows: &'s [SymbolRow]) -> SymbolNames<'s>
        requires { AllByRecursion (λ (y : Row). y.name < length names.now) rows.now }
        ensures { result ≡ map (λ (y : Row). name_at names.now y.name) rows.now }
    {
        SymbolNames {
            names,
            rows: rows.iter(),
        }
    }

    /// How many are left.
    pub fn len(&self) -> usize
        ensures { result ≡ length self.now }
    {
        self.rows.len()
    }
}

impl<'s> Iterator for SymbolNames<'s> {
    type Item = &'s str;

    ghost next_gives = { TakesFirst (λ name. chars name.now) };

    ghost remaining = { λ s. at_most (length s) };

    fn next(&mut self) -> Option<&'s str> {
        let row = self.rows.next()?;
        Some(self.names.name(row.name()))
    }
}

/// The ids of the symbols that are left, ascending.
#[derive(Drop)]
pub struct SymbolIds {
    next: usize,
    left: usize,
}

impl Model for SymbolIds {
    ghost use Rattle.std.specs.Prelude.{ℕ, List, ◌+◌, ◌<◌};
    ghost use Rattle.std.specs.List.{range_with_len};

    ghost Value = { List ℕ };

    ghost view = { λ a. range_with_len a.next a.left };

    ghost invariant = { λ a. a.next + a.left < 4294967296 };
}

impl SymbolIds {
    pub(crate) fn new(count: usize) -> SymbolIds
        requires { count < 4294967296 }
        ensures { result ≡ range_with_len 0 count }
    {
        SymbolIds {
            next: 0,
            left: count,
        }
    }

    /// How many are left.
    pub fn len(&self) -> usize
        ensures { result ≡ length self.now }
    {
        self.left
    }
}

impl Iterator for SymbolIds {
    type Item = SymbolId;

    ghost next_gives = { TakesFirst (λ y. y) };

    ghost remaining = { λ s. at_most (length s) };

    fn next(&mut self) -> Option<SymbolId> {
        if self.left == 0 {
            return None;
        }
        let id = SymbolId::new(self.next as u32);
        self.next += 1;
        self.left -= 1;
        Some(id)
    }
}

/// The nodes that declare a symbol, that are left.
#[derive(Drop)]
pub struct Declarations<'s> {
    first: Option<NodeId>,
    rest: Iter<'s, Redeclaration>,
}

impl<'s> Model for Declarations<'s> {
    ghost use Rattle.std.specs.Prelude.{ℕ, List};

    ghost Value = { List ℕ };

    ghost use Rattle.scoping.specs.Left.{declarations_left};

    ghost view = { declarations_left };
}

impl<'s> Declarations<'s> {
    pub(crate) fn new(first: Option<NodeId>, rest: &'s [Redeclaration]) -> Declarations<'s>
        ensures { result ≡ option_to_list first ++ map (λ d. d.declaration) rest.now }
    {
        Declarations {
            first,
            rest: rest.iter(),
        }
    }
}

impl<'s> Iterator for Declarations<'s> {
    type Item = NodeId;

    ghost next_gives = { TakesFirst (λ n. n) };

    ghost remaining = { λ s. at_most (length s) };

    fn next(&mut self) -> Option<NodeId> {
        if let Some(node) = self.first {
            self.first = None;
            return Some(node);
        }
        let entry = self.rest.next()?;
        Some(entry.declaration)
    }
}
