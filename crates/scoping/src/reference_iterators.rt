//! References, one after the other.
ghost use Rattle.std.specs.Prelude.{◌≡◌, ◌<◌, length, map, slice_index_or};
ghost use Rattle.std.specs.Iterator.{at_most};
ghost use Rattle.std.specs.List.{AllByRecursion};
ghost use Rattle.std.specs.Map.Iter.{TakesFirst, TakesLast, deref};
ghost use Rattle.semantic_syntax.specs.Reading.{no_reference};

use scoping_rows::use_list::UseList;
use semantic_syntax::{Reference, ReferenceId};
use std::marker::Model;
use std::slice::Iter;

/// The lists of uses that are left, one for each symbol.
#[derive(Drop)]
pub struct UseLists<'s> {
    lists: Iter<'s, UseList>,
}

impl<'s> Model for UseLists<'s> {
    ghost use Rattle.std.specs.Prelude.{ℕ, List, map};
    ghost use Rattle.std.specs.Slice.Iter.{iter_rest};

    ghost Value = { List (List ℕ) };

    ghost view = { λ a. map (λ v. v.items) (iter_rest a.lists) };
}

impl<'s> UseLists<'s> {
    pub(crate) fn new(lists: &'s [UseList]) -> UseLists<'s>
        ensures { result ≡ map (λ v. v.items) lists.now }
    {
        UseLists {
            lists: lists.iter(),
        }
    }

    /// How many are left.
    pub fn len(&self) -> usize
        ensures { result ≡ length self.now }
    {
        self.lists.len()
    }
}

impl<'s> Iterator for UseLists<'s> {
    type Item = &'s [ReferenceId];

    ghost next_gives = { TakesFirst deref };

    ghost remaining = { λ s. at_most (length s) };

    fn next(&mut self) -> Option<&'s [ReferenceId]> {
        let list = self.lists.next()?;
        Some(list.as_slice())
    }
}

/// The references of a list that are left.
#[derive(Drop)]
pub struct ReferencesIter<'s> {
    references: &'s [Reference],
    ids: Iter<'s, ReferenceId>,
}

impl<'s> Model for ReferencesIter<'s> {
    ghost use Rattle.std.specs.Prelude.{List};
    ghost use Rattle.semantic_syntax.specs.declared.references.Reference.{Reference};

    ghost Value = { List Reference };

    ghost use Rattle.scoping.specs.Left.{references_left, AreReferencesLeft};

    ghost view = { references_left };

    ghost invariant = { AreReferencesLeft };
}

impl<'s> ReferencesIter<'s> {
    pub(crate) fn new(references: &'s [Reference], ids: &'s [ReferenceId]) -> ReferencesIter<'s>
        requires { AllByRecursion (λ r. r < length references.now) ids.now }
        ensures { result ≡ map (λ r. slice_index_or references.now r no_reference) ids.now }
    {
        ReferencesIter {
            references,
            ids: ids.iter(),
        }
    }
}

impl<'s> Iterator for ReferencesIter<'s> {
    type Item = &'s Reference;

    ghost next_gives = { TakesFirst deref };

    ghost remaining = { λ s. at_most (length s) };

    fn next(&mut self) -> Option<&'s Reference> {
        match self.ids.next() {
            Some(id) => Some(&self.references[id.index()]),
            None => None,
        }
    }
}

impl<'s> DoubleEndedIterator for ReferencesIter<'s> {
    ghost next_back_gives = { TakesLast deref };

    fn next_back(&mut self) -> Option<&'s Reference> {
        let id = self.ids.next_back()?;
        Some(&self.references[id.index()])
    }
}
