//! Sets of names.
ghost use Rattle.std.specs.Prelude.{◌≡◌, ◌<◌, [], ◌∷◌, ◌++◌, ◌||◌, ℕ, List, bytes_eq, cond, length, slice_index_or, OnOk};
ghost use Rattle.std.specs.List.{list_any};
ghost use Rattle.std.specs.Str.{chars};

use indexmap::IndexSet;
use std::alloc::{AllocError, Global};
use std::marker::Model;

/// A set of names, in the order in which they came. Contracts see a list of them.
#[derive(Drop)]
pub struct NameSet {
    texts: IndexSet<String>,
}

impl Model for NameSet {
    ghost use Rattle.std.specs.Prelude.{ℕ, List, map, string_bytes};
    ghost use Rattle.std.specs.Str.{chars};

    ghost Value = { List (List ℕ) };

    ghost view = { λ a. map (λ k. chars (string_bytes k)) a.texts.keys };
}

impl NameSet {
    /// No names.
    pub fn new(alloc: Global) -> NameSet
        ensures { result ≡ [] }
    {
        NameSet {
            texts: IndexSet::new(alloc),
        }
    }

    /// Adds a name behind the others, unless it is among them. The only error is want of memory.
    pub fn add(&mut self, alloc: Global, name: &str) -> Result<(), AllocError>
        ensures joined { OnOk result (self.new
            ≡ cond (list_any (bytes_eq (chars name.now)) self.old) self.old
            (self.old ++ chars name.now ∷ [])) }
        ensures has { OnOk result ((q : List ℕ)
            → list_any (bytes_eq q) self.new
            ≡ (bytes_eq q (chars name.now) || list_any (bytes_eq q) self.old)) }
    {
        let text = String::from_str(alloc, name)?;
        self.texts.insert(text)?;
        Ok(())
    }

    /// Whether the name is among them.
    pub fn has(&self, name: &str) -> bool
        ensures { result ≡ list_any (bytes_eq (chars name.now)) self.now }
    {
        self.texts.contains(name)
    }

    /// How many names there are.
    pub fn len(&self) -> usize
        ensures { result ≡ length self.now }
    {
        self.texts.len()
    }

    /// The name of this number.
    pub fn name_at(&self, number: usize) -> &str
        requires { number < length self.now }
        ensures { chars result.now ≡ slice_index_or self.now number [] }
    {
        self.texts[number].as_str()
    }
}
