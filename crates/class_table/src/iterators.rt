//! Classes and uses, one after the other.
ghost use Rattle.std.specs.Prelude.{◌≡◌, ◌≤◌, length, map};
ghost use Rattle.std.specs.Iterator.{at_most};
ghost use Rattle.std.specs.List.{enumerate_from};
ghost use Rattle.std.specs.Map.Iter.{TakesFirst};
ghost use Rattle.class_table.specs.Seen.{use_seen, use_behind};

use crate::private_name::PrivateIdentifierReference;
use semantic_syntax::{ClassId, NodeId};
use std::marker::Model;
use std::slice::Iter;

/// The classes that are left, each with its node. Contracts see these pairs.
#[derive(Drop)]
pub struct ClassesEnumerated<'n> {
    nodes: &'n [NodeId],
    next: u32,
}

impl<'n> Model for ClassesEnumerated<'n> {
    ghost use Rattle.std.specs.Prelude.{ℕ, List, length, drop, ◌≤◌, ◌^◌, ◌-◌};
    ghost use Rattle.std.specs.List.{enumerate_from};

    ghost Value = { List (ℕ × ℕ) };

    ghost view = { λ a. enumerate_from a.next (drop a.next a.nodes.now) };

    ghost invariant = { λ a. length a.nodes.now ≤ 2 ^ 32 - 1 };
}

impl<'n> ClassesEnumerated<'n> {
    /// All of some classes, from the id 0 on.
    pub(crate) fn new(nodes: &'n [NodeId]) -> ClassesEnumerated<'n>
        requires { length nodes.now ≤ u32.MAX }
        ensures { result ≡ enumerate_from 0 nodes.now }
    {
        ClassesEnumerated { nodes, next: 0 }
    }

    /// How many classes are left.
    #[tactic(auto, using(crate::proofs::Rests::classes_left))]
    pub fn len(&self) -> usize
        ensures { result ≡ length self.now }
    {
        self.nodes.len().saturating_sub(self.next as usize)
    }
}

impl<'n> Iterator for ClassesEnumerated<'n> {
    type Item = (ClassId, NodeId);

    ghost next_gives = { TakesFirst (λ p. p) };

    ghost remaining = { λ s. at_most (length s) };

    #[tactic(auto, using(crate::proofs::Rests::class_first, crate::proofs::Rests::class_none))]
    fn next(&mut self) -> Option<(ClassId, NodeId)> {
        if self.nodes.len() <= self.next as usize {
            return None;
        }
        let id = ClassId::new(self.next);
        let node = self.nodes[id.index()];
        self.next += 1;
        Some((id, node))
    }
}

/// The uses of private names that are left. Contracts see what each is.
#[derive(Drop)]
pub struct PrivateUses<'n> {
    uses: Iter<'n, PrivateIdentifierReference<'n>>,
}

impl<'n> Model for PrivateUses<'n> {
    ghost use Rattle.std.specs.Prelude.{List, map};
    ghost use Rattle.std.specs.Slice.Iter.{iter_rest};
    ghost use Rattle.semantic_model.specs.Class.{PrivateUse};

    ghost Value = { List PrivateUse };

    ghost use Rattle.class_table.specs.Seen.{use_seen};

    ghost view = { λ a. map use_seen (iter_rest a.uses) };
}

impl<'n> PrivateUses<'n> {
    /// The uses in a list, from the first on.
    pub(crate) fn new(uses: &'n [PrivateIdentifierReference<'n>]) -> PrivateUses<'n>
        ensures { result ≡ map use_seen uses.now }
    {
        PrivateUses { uses: uses.iter() }
    }

    /// How many uses are left.
    pub fn len(&self) -> usize
        ensures { result ≡ length self.now }
    {
        self.uses.len()
    }
}

impl<'n> Iterator for PrivateUses<'n> {
    type Item = &'n PrivateIdentifierReference<'n>;

    ghost next_gives = { TakesFirst use_behind };

    ghost remaining = { λ s. at_most (length s) };

    fn next(&mut self) -> Option<&'n PrivateIdentifierReference<'n>> {
        self.uses.next()
    }
}
