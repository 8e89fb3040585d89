//! References that wait for their symbol.
ghost use Rattle.std.specs.Prelude.{◌≡◌, ◌+◌, [], ◌∷◌, ◌++◌, length, take, drop, slice_get, OnOk, OnErr};
ghost use Rattle.resolver.specs.Terms.{staying};

use crate::outcomes::{Outcome, Outcomes};
use semantic_syntax::{Ident, ReferenceId, ScopeId};
use std::alloc::{AllocError, Global};
use std::marker::Model;
use std::mem;

/// A reference that waits: its name, and the scope from which it is to be looked up outward.
#[derive(Clone, Copy)]
pub struct UnresolvedReference<'a> {
    pub name: Ident<'a>,
    pub reference_id: ReferenceId,
    pub lookup_scope_id: ScopeId,
}

/// The references that wait, in order. Contracts see a list.
#[derive(Drop)]
pub struct UnresolvedReferences<'a> {
    alloc: Global,
    entries: Vec<UnresolvedReference<'a>>,
}

impl<'a> Model for UnresolvedReferences<'a> {
    ghost use Rattle.std.specs.Prelude.{List};
    ghost use Rattle.resolver.specs.declared.pending.UnresolvedReference.{UnresolvedReference};

    ghost Value = { List UnresolvedReference };

    ghost view = { λ u. u.entries.items };
}

impl<'a> UnresolvedReferences<'a> {
    /// No reference waits yet.
    pub fn new(alloc: Global) -> UnresolvedReferences<'a>
        ensures { result ≡ [] }
    {
        UnresolvedReferences {
            alloc,
            entries: Vec::new(alloc),
        }
    }

    /// Makes room for `n` references more. The list stays, also after want of memory.
    pub fn reserve_exact(&mut self, n: usize) -> Result<(), AllocError>
        ensures { self.new ≡ self.old }
    {
        self.entries.reserve_exact(n)
    }

    /// Adds a reference as the last one. After want of memory the list is as before.
    pub fn push(&mut self, u: UnresolvedReference<'a>) -> Result<(), AllocError>
        ensures ok { OnOk result (self.new ≡ self.old ++ u.entry ∷ []) }
        ensures err { OnErr result (self.new ≡ self.old) }
    {
        let entry = UnresolvedReference {
            name: u.name,
            reference_id: u.reference_id,
            lookup_scope_id: u.lookup_scope_id,
        };
        match self.entries.push(entry) {
            Ok(()) => Ok(()),
            Err(_) => Err(AllocError),
        }
    }

    /// Makes room for so many more references. All stays, whatever the answer.
    pub fn reserve(&mut self, references: usize) -> Result<(), AllocError>
        ensures { self.new ≡ self.old }
    {
        self.entries.reserve(references)?;
        Ok(())
    }

    /// Takes all references out.
    pub fn take(&mut self) -> Vec<UnresolvedReference<'a>>
        ensures taken { result.items ≡ self.old }
        ensures empty { self.new ≡ [] }
    {
        mem::replace(&mut self.entries, Vec::new(self.alloc))
    }

    /// How many references wait.
    pub fn len(&self) -> usize
        ensures { result ≡ length self.now }
    {
        self.entries.len()
    }

    /// The reference at a position, if there is one.
    pub fn get(&self, position: usize) -> Option<UnresolvedReference<'a>>
        ensures { result ≡ slice_get self.now position }
    {
        let entry = self.entries.get(position)?;
        Some(UnresolvedReference {
            name: entry.name,
            reference_id: entry.reference_id,
            lookup_scope_id: entry.lookup_scope_id,
        })
    }

    // Those from the position `start` on.
    pub(crate) fn entries_from(&self, start: usize) -> &[UnresolvedReference<'a>]
        ensures { result.now ≡ drop start self.now }
    {
        let entries = self.entries.as_slice();
        if start < entries.len() {
            &entries[start..]
        } else {
            &[]
        }
    }

    /// Gives the references from the position `start` on their outcomes, one for each. One that is pending stays,
    /// with its new look-up scope; the others go. The order of what stays is kept.
    pub fn apply(&mut self, start: usize, outcomes: &Outcomes)
        requires { start + length outcomes.now ≡ length self.old }
        ensures { self.new ≡ take start self.old ++ staying (drop start self.old) outcomes.now }
    {
        let mut kept = start;
        let mut position = start;
        for outcome in outcomes.as_slice() {
            match *outcome {
                Outcome::Pending(scope) => {
                    let entry = &self.entries[position];
                    self.entries[kept] = UnresolvedReference {
                        name: entry.name,
                        reference_id: entry.reference_id,
                        lookup_scope_id: scope,
                    };
                    kept += 1;
                }
                Outcome::Tied(_) => {}
                Outcome::Free => {}
            }
            position += 1;
        }
        self.entries.truncate(kept);
    }
}
