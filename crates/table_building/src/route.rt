//! A way outward through scopes: of a `var` to its function (ECMAScript 8.2.7, VarScopedDeclarations), and of what
//! `infer` declares to its conditional type (TypeScript's `getInferTypeContainer`).

ghost use Rattle.std.specs.Prelude.{◌≡◌, ◌<◌, length, IfOk, IfSome};
ghost use Rattle.semantic_syntax.specs.Reading.{scope_of};
ghost use Rattle.table_building.specs.Routes.{IsRoute, IsRouteOf, way_from};

use scoping::Scoping;
use semantic_syntax::{ScopeFlags, ScopeId};
use smallvec::SmallVec;
use std::alloc::{AllocError, Global};
use std::marker::Model;

/// A scope that is passed. A place of a list that isn't used yet holds the root.
#[derive(Clone, Copy)]
pub struct PassedScope {
    id: ScopeId,
}

impl Model for PassedScope {
    ghost use Rattle.std.specs.Prelude.{ℕ};

    ghost Value = { ℕ };

    ghost view = { λ p. p.id };

    ghost inverse = { λ n. record { id = n } };
}

impl PassedScope {
    /// The scope that is passed.
    pub fn id(self) -> ScopeId
        ensures { result ≡ self }
    {
        self.id
    }
}

impl Default for PassedScope {
    fn default() -> PassedScope {
        PassedScope {
            id: ScopeId::new(0),
        }
    }
}

/// The scopes that are passed, from inner to outer, and the one where the way ends. Most ways pass few, which take
/// no memory.
#[derive(Drop)]
pub struct Route {
    pub passed: SmallVec<PassedScope, 8>,
    pub target: ScopeId,
}

/// The scope around the scope, which the root's has not.
pub(crate) fn parent(scoping: &Scoping, scope: ScopeId) -> Option<ScopeId>
    requires { scope < length scoping.now.scopes }
    ensures value { result ≡ (scope_of scoping.now scope).parent }
    ensures within { IfSome result (λ s. s < length scoping.now.scopes) }
{
    scoping.attest();
    scoping.scope_parent_id(scope)
}

#[tactic(auto, using(crate::proofs::Growing::growing))]
impl Route {
    /// Outward to the first scope, the one where it begins included, with one of the flags. Where there is none,
    /// the way ends where it begins.
    pub fn outward(
        alloc: Global,
        scoping: &Scoping,
        from: ScopeId,
        flags: ScopeFlags,
    ) -> Result<Route, AllocError>
        requires { from < length scoping.now.scopes }
        ensures way { IfOk result
            (λ route. IsRouteOf (way_from scoping.now from flags.bits) route) }
        ensures within { IfOk result (λ route. IsRoute (length scoping.now.scopes) route) }
    {
        let mut passed = SmallVec::new(alloc);
        let mut scope = from;
        for _ in 0..scoping.scopes_len() {
            if scoping.scope_flags(scope).intersects(flags) {
                return Ok(Route {
                    passed,
                    target: scope,
                });
            }
            passed.push(PassedScope { id: scope })?;
            match parent(scoping, scope) {
                Some(around) => scope = around,
                None => break,
            }
        }
        Ok(Route {
            passed: SmallVec::new(alloc),
            target: from,
        })
    }
}
