//! Scopes, one after the other.
ghost use Rattle.std.specs.Prelude.{◌≡◌, ◌+◌, ◌<◌, length, map};
ghost use Rattle.std.specs.Iterator.{at_most};
ghost use Rattle.std.specs.List.{range_with_len};
ghost use Rattle.std.specs.Map.Iter.{TakesFirst};
ghost use Rattle.semantic_syntax.specs.Reading.{chain, IsForest};
ghost use Rattle.scoping.specs.View.{scope_of_row};

use crate::scoping::ScopeRow;
use semantic_syntax::ScopeId;
use std::marker::Model;

/// The ids of the scopes that are left, ascending.
#[derive(Drop)]
pub struct ScopeIds {
    next: usize,
    left: usize,
}

impl Model for ScopeIds {
    ghost use Rattle.std.specs.Prelude.{ℕ, List, ◌+◌, ◌<◌};
    ghost use Rattle.std.specs.List.{range_with_len};

    ghost Value = { List ℕ };

    ghost view = { λ a. range_with_len a.next a.left };

    ghost invariant = { λ a. a.next + a.left < 4294967296 };
}

impl ScopeIds {
    pub(crate) fn new(count: usize) -> ScopeIds
        requires { count < 4294967296 }
        ensures { result ≡ range_with_len 0 count }
    {
        ScopeIds {
            next: 0,
            left: count,
        }
    }

    /// How many are left.
    pub fn len(&self) -> usize
        ensures { result ≡ length self.now }
    {
        self.left
    }
}

impl Iterator for ScopeIds {
    type Item = ScopeId;

    ghost next_gives = { TakesFirst (λ s. s) };

    ghost remaining = { λ s. at_most (length s) };

    fn next(&mut self) -> Option<ScopeId> {
        if self.left == 0 {
            return None;
        }
        let id = ScopeId::new(self.next as u32);
        self.next += 1;
        self.left -= 1;
        Some(id)
    }
}

/// A scope and those around it that are left.
#[derive(Drop)]
pub struct ScopeAncestors<'s> {
    scopes: &'s [ScopeRow],
    next: Option<ScopeId>,
}

impl<'s> Model for ScopeAncestors<'s> {
    ghost use Rattle.std.specs.Prelude.{ℕ, List};

    ghost Value = { List ℕ };

    ghost use Rattle.scoping.specs.Left.{ancestors_left, AreAncestorsLeft};

    ghost view = { ancestors_left };

    ghost invariant = { AreAncestorsLeft };
}

impl<'s> ScopeAncestors<'s> {
    pub(crate) fn new(scopes: &'s [ScopeRow], scope: ScopeId) -> ScopeAncestors<'s>
        requires within { scope < length scopes.now }
        requires forest { IsForest (map scope_of_row scopes.now) }
        ensures { result ≡ chain (map scope_of_row scopes.now) scope }
    {
        ScopeAncestors {
            scopes,
            next: Some(scope),
        }
    }
}

impl<'s> Iterator for ScopeAncestors<'s> {
    type Item = ScopeId;

    ghost next_gives = { TakesFirst (λ s. s) };

    ghost remaining = { λ s. at_most (length s) };

    fn next(&mut self) -> Option<ScopeId> {
        let scope = self.next?;
        self.next = self.scopes[scope.index()].parent();
        Some(scope)
    }
}
