//! Lists of references, each under a number.
ghost use Rattle.std.specs.Prelude.{◌≡◌, ◌++◌, [], ◌∷◌, nat_eq, unwrap_or, option_map, map, length, OnOk, OnErr};
ghost use Rattle.std.specs.Map.{lookup};
ghost use Rattle.indexmap.specs.IndexMap.{insert_entry};
ghost use Rattle.scoping_rows.specs.Kept.{delisted, lists_without_types};

use crate::kept::retain_values;
use crate::positions::take_out;
use indexmap::IndexMap;
use indexmap::map::Iter;
use semantic_syntax::{Reference, ReferenceId};
use std::alloc::{AllocError, Global};
use std::marker::Model;

/// Lists of references, each under a number, in the order of the numbers' first entries.
#[derive(Drop)]
pub struct FreeTable {
    alloc: Global,
    lists: IndexMap<usize, Vec<ReferenceId>>,
}

impl Model for FreeTable {
    ghost use Rattle.std.specs.Prelude.{ℕ, List, map};

    ghost Value = { List (ℕ × List ℕ) };

    ghost view = { λ t. map (λ e. (e.0, e.1.items)) t.lists.entries };
}

impl FreeTable {
    /// A table without lists.
    pub fn new(alloc: Global) -> FreeTable
        ensures { result ≡ [] }
    {
        FreeTable {
            alloc,
            lists: IndexMap::new(alloc),
        }
    }

    /// Adds the reference to the list of the number, last.
    pub fn push(&mut self, number: usize, reference: ReferenceId) -> Result<(), AllocError>
        ensures ok { OnOk result
            (self.new ≡ insert_entry nat_eq self.old number
            (unwrap_or (lookup (nat_eq number) self.old) [] ++ reference ∷ [])) }
        ensures err { OnErr result (self.new ≡ self.old) }
    {
        if let Some(list) = self.lists.get_mut(&number) {
            list.push(reference)?;
            return Ok(());
        }
        let list = vec![in self.alloc; reference]?;
        self.lists.insert(number, list)?;
        Ok(())
    }

    /// Takes the reference out of the list of the number. The last one takes its position, and an empty list goes.
    pub fn remove(&mut self, number: usize, reference: ReferenceId)
        ensures { self.new ≡ delisted (nat_eq number) reference self.old }
    {
        let list = match self.lists.get_mut(&number) {
            Some(list) => list,
            None => return,
        };
        take_out(list, reference);
        if list.is_empty() {
            let _list = self.lists.shift_remove(&number);
        }
    }

    /// Drops the references of types alone, and then the empty lists.
    pub fn retain_values(&mut self, references: &[Reference])
        ensures { self.new ≡ lists_without_types references.now self.old }
    {
        self.lists.retain(|_, list| {
            retain_values(list, references);
            !list.is_empty()
        });
    }

    /// The list of the number, if any.
    pub fn get(&self, number: usize) -> Option<&[ReferenceId]>
        ensures { option_map (λ list. list.now) result ≡ lookup (nat_eq number) self.now }
    {
        let list = self.lists.get(&number)?;
        Some(list.as_slice())
    }

    /// The lists, in the order of the numbers' first entries.
    pub fn iter(&self) -> Iter<'_, usize, Vec<ReferenceId>>
        ensures { map (λ e. (e.0, e.1.items)) result ≡ self.now }
    {
        self.lists.iter()
    }

    /// How many lists there are.
    pub fn len(&self) -> usize
        ensures { result ≡ length self.now }
    {
        self.lists.len()
    }
}

impl Clone for FreeTable {
    ghost is_clone = { λ t u. u ≡ t };

    fn clone(&self) -> Result<FreeTable, AllocError> {
        Ok(FreeTable {
            alloc: self.alloc,
            lists: self.lists.clone()?,
        })
    }
}
