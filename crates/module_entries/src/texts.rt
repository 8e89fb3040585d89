//! Texts, each with a number.
ghost use Rattle.std.specs.Prelude.{◌≡◌, [], Some, length, slice_get, IfOk, OnOk};
ghost use Rattle.std.specs.Str.{chars};
ghost use Rattle.tree_json.specs.Views.{IsSpelled};
ghost use Rattle.link_search.specs.Ends.{AreApart};
ghost use Rattle.link_targets.specs.Denoted.{Grows};

use indexmap::IndexSet;
use std::alloc::{AllocError, Global};
use std::marker::Model;

/// Texts, each with a number: its place. A text keeps its number. Contracts see the list of texts.
#[derive(Drop)]
pub struct Texts<'a> {
    set: IndexSet<&'a str>,
}

impl<'a> Model for Texts<'a> {
    ghost use Rattle.std.specs.Prelude.{ℕ, List, map};
    ghost use Rattle.tree_json.specs.Views.{characters};
    ghost use Rattle.module_entries.specs.Interned.{AreInterned};

    ghost Value = { List (List ℕ) };

    ghost view = { λ t. map characters t.set.keys };

    ghost invariant = { λ t. AreInterned t.set.keys };
}

/// A text is the UTF-8 form of its characters.
#[tactic(auto, using(tree_json::proofs::Spelled::is_spelled))]
pub fn spell(text: &str)
    ensures { IsSpelled text.entry }
{}

impl<'a> Texts<'a> {
    /// No texts.
    pub fn new(alloc: Global) -> Texts<'a>
        ensures { result ≡ [] }
    {
        Texts {
            set: IndexSet::new(alloc),
        }
    }

    /// The place of a text, which goes last if it is not there.
    fn place_of(&mut self, text: &'a str) -> Result<usize, AllocError>
        ensures grows { OnOk result (Grows self.old self.new) }
        ensures place { IfOk result (λ place. slice_get self.new place ≡ Some (chars text.now)) }
    {
        spell(text);
        let (place, _) = self.set.insert_full(text)?;
        Ok(place)
    }

    /// The number of a text, which gets one if it has none. More texts than have numbers are want of memory.
    pub fn number_of(&mut self, text: &'a str) -> Result<u32, AllocError>
        ensures grows { OnOk result (Grows self.old self.new) }
        ensures number { IfOk result (λ number. slice_get self.new number ≡ Some (chars text.now)) }
    {
        let place = self.place_of(text)?;
        match u32::try_from(place) {
            Ok(number) => Ok(number),
            Err(_) => Err(AllocError),
        }
    }

    /// How many texts there are.
    pub fn len(&self) -> usize
        ensures { result ≡ length self.now }
    {
        self.set.len()
    }

    /// No text has two numbers.
    pub fn are_apart(&self)
        ensures { AreApart self.now }
    {
        let _ = &self.set;
    }
}
