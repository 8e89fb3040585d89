//! The free references, by name.
ghost use Rattle.std.specs.Prelude.{◌≡◌, ◌==◌, ◌<◌, length, option_map};
ghost use Rattle.std.specs.Iterator.{at_most};
ghost use Rattle.std.specs.List.{AllByRecursion};
ghost use Rattle.std.specs.Map.{lookup, values_of};
ghost use Rattle.std.specs.Map.Iter.{TakesFirst, deref};
ghost use Rattle.std.specs.Str.{bytes_eq};
ghost use Rattle.scoping_rows.specs.Names.{name_of, named, list_of};

use indexmap::map::Iter;
use scoping_rows::free_table::FreeTable;
use scoping_rows::name_table::NameTable;
use semantic_syntax::{Ident, ReferenceId};
use std::marker::Model;

/// The free references of each name, names in order of first entry.
#[derive(Drop)]
pub struct UnresolvedReferences<'s> {
    names: &'s NameTable,
    lists: &'s FreeTable,
}

impl<'s> Model for UnresolvedReferences<'s> {
    ghost use Rattle.std.specs.Prelude.{◌<◌, length};
    ghost use Rattle.std.specs.List.{AllByRecursion};
    ghost use Rattle.semantic_syntax.specs.Tables.{FreeLists};
    ghost use Rattle.scoping_rows.specs.Names.{named};

    ghost Value = { FreeLists };

    ghost view = { λ a. named a.names.now a.lists.now };

    ghost invariant = { λ a. AllByRecursion (λ e. e.0 < length a.names.now) a.lists.now };
}

impl<'s> UnresolvedReferences<'s> {
    pub(crate) fn new(names: &'s NameTable, lists: &'s FreeTable) -> UnresolvedReferences<'s>
        requires { AllByRecursion (λ e. e.0 < length names.now) lists.now }
        ensures { result ≡ named names.now lists.now }
    {
        UnresolvedReferences { names, lists }
    }

    /// The free references of the name, if it has a list.
    pub fn get(&self, name: Ident<'_>) -> Option<&'s [ReferenceId]>
        ensures { option_map (λ list. list.now) result
            ≡ lookup (bytes_eq (name_of name.entry)) self.now }
    {
        let number = self.names.find(name)?;
        self.lists.get(number)
    }

    /// The names with their lists, in order of first entry.
    pub fn iter(&self) -> UnresolvedIter<'s>
        ensures { result ≡ self.now }
    {
        UnresolvedIter {
            names: self.names,
            lists: self.lists.iter(),
        }
    }

    /// How many names have a list.
    pub fn len(&self) -> usize
        ensures { result ≡ length self.now }
    {
        self.lists.len()
    }
}

/// The names with their lists that are left.
#[derive(Drop)]
pub struct UnresolvedIter<'s> {
    names: &'s NameTable,
    lists: Iter<'s, usize, Vec<ReferenceId>>,
}

impl<'s> Model for UnresolvedIter<'s> {
    ghost use Rattle.semantic_syntax.specs.Tables.{FreeLists};

    ghost Value = { FreeLists };

    ghost use Rattle.scoping.specs.Left.{lists_left, AreListsLeft};

    ghost view = { lists_left };

    ghost invariant = { AreListsLeft };
}

impl<'s> Iterator for UnresolvedIter<'s> {
    type Item = (Ident<'s>, &'s [ReferenceId]);

    ghost next_gives = { TakesFirst list_of };

    ghost remaining = { λ s. at_most (length s) };

    fn next(&mut self) -> Option<(Ident<'s>, &'s [ReferenceId])> {
        let (number, list) = self.lists.next()?;
        Some((Ident::new(self.names.name(*number)), list.as_slice()))
    }
}

/// The free lists that are left, names in order of first entry.
#[derive(Drop)]
pub struct FreeLists<'s> {
    lists: Iter<'s, usize, Vec<ReferenceId>>,
}

impl<'s> Model for FreeLists<'s> {
    ghost use Rattle.std.specs.Prelude.{ℕ, List, map};

    ghost Value = { List (List ℕ) };

    ghost view = { λ a. map (λ e. e.1.items) a.lists };
}

impl<'s> FreeLists<'s> {
    pub(crate) fn new(lists: &'s FreeTable) -> FreeLists<'s>
        ensures { result ≡ values_of lists.now }
    {
        FreeLists {
            lists: lists.iter(),
        }
    }
}

impl<'s> Iterator for FreeLists<'s> {
    type Item = &'s [ReferenceId];

    ghost next_gives = { TakesFirst deref };

    ghost remaining = { λ s. at_most (length s) };

    fn next(&mut self) -> Option<&'s [ReferenceId]> {
        let (_, list) = self.lists.next()?;
        Some(list.as_slice())
    }
}
