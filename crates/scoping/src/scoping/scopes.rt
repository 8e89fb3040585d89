//! Scopes.
ghost use Rattle.std.specs.Prelude.{◌≡◌, ◌==◌, ◌<◌, ◌++◌, [], ◌∷◌, length, drop, nat_eq, not, if◌then◌else◌, IfOk, OnOk, OnErr, IfSome};
ghost use Rattle.std.specs.List.{range_with_len, list_any};
ghost use Rattle.std.specs.Int.RustNames.{bit_and, bit_or};
ghost use Rattle.scoping.specs.Ancestry.{RunsOutward};
ghost use Rattle.semantic_syntax.specs.Reading.{scope_of, chain};

use super::room::push_in_room;
use super::{ScopeRow, Scoping};
use crate::scope_iterators::{ScopeAncestors, ScopeIds};
use semantic_syntax::{NodeId, ScopeFlags, ScopeId};
use std::alloc::AllocError;

impl Scoping {
    /// Adds a scope, which binds nothing.
    pub fn add_scope(
        &mut self,
        parent: Option<ScopeId>,
        node: NodeId,
        flags: ScopeFlags,
    ) -> Result<ScopeId, AllocError>
        requires room { length self.old.scopes < 4294967295 }
        requires parent { IfSome parent (λ p. p < length self.old.scopes) }
        ensures added { IfOk result (λ s. s ≡ length self.old.scopes) }
        ensures ok { OnOk result (self.new ≡ record self.old {
          scopes = self.old.scopes ++ record { parent = parent; node = node; flags = flags } ∷ [];
          bindings = self.old.bindings ++ [] ∷ [];
        }) }
        ensures err { OnErr result (self.new ≡ self.old) }
    {
        let id = ScopeId::new(self.scopes.len() as u32);
        self.scopes.reserve(1)?;
        self.bindings.add_scope()?;
        let row = ScopeRow {
            parent,
            node,
            flags,
        };
        push_in_room(&mut self.scopes, row);
        Ok(id)
    }

    /// Which kind of node opened the scope, and whether its code is strict.
    pub fn scope_flags(&self, scope: ScopeId) -> ScopeFlags
        requires { scope < length self.now.scopes }
        ensures { result ≡ (scope_of self.now scope).flags }
    {
        self.scopes[scope.index()].flags
    }

    /// The scope around the scope, if any.
    pub fn scope_parent_id(&self, scope: ScopeId) -> Option<ScopeId>
        requires { scope < length self.now.scopes }
        ensures { result ≡ (scope_of self.now scope).parent }
    {
        self.scopes[scope.index()].parent
    }

    /// The node that opens the scope.
    pub fn get_node_id(&self, scope: ScopeId) -> NodeId
        requires { scope < length self.now.scopes }
        ensures { result ≡ (scope_of self.now scope).node }
    {
        self.scopes[scope.index()].node
    }

    /// Whether there are no scopes.
    pub fn scopes_is_empty(&self) -> bool
        ensures { result ≡ (length self.now.scopes == 0) }
    {
        self.scopes.is_empty()
    }

    /// The scope and those around it, from within. They begin with the scope, end with one that has none around it,
    /// and repeat none.
    pub fn scope_ancestors(&self, scope: ScopeId) -> ScopeAncestors<'_>
        requires { scope < length self.now.scopes }
        ensures chain { result ≡ chain self.now.scopes scope }
        ensures outward { RunsOutward self.now.scopes scope result }
    {
        ScopeAncestors::new(self.scopes.as_slice(), scope)
    }

    /// All scopes, ascending.
    pub fn scope_descendants_from_root(&self) -> ScopeIds
        ensures { result ≡ range_with_len 0 (length self.now.scopes) }
    {
        ScopeIds::new(self.scopes.len())
    }

    /// Whether the scope stands below the other. None stands below itself.
    pub fn scope_is_descendant_of(&self, scope: ScopeId, ancestor: ScopeId) -> bool
        requires { scope < length self.now.scopes }
        ensures { result ≡ list_any (nat_eq ancestor) (drop 1 (chain self.now.scopes scope)) }
    {
        let mut outward = self.scope_ancestors(scope);
        let _own = outward.next();
        for around in outward {
            if ancestor == around {
                return true;
            }
        }
        false
    }

    /// The root.
    pub fn root_scope_id(&self) -> ScopeId
        ensures { result ≡ 0 }
    {
        ScopeId::new(0)
    }

    /// What the root is.
    pub fn root_scope_flags(&self) -> ScopeFlags
        requires { 0 < length self.now.scopes }
        ensures { result ≡ (scope_of self.now 0).flags }
    {
        self.scope_flags(self.root_scope_id())
    }

    /// The flags, and `StrictMode` where the parent has it.
    pub fn get_new_scope_flags(&self, flags: ScopeFlags, parent: ScopeId) -> ScopeFlags
        requires { parent < length self.now.scopes }
        ensures { result.bits ≡ (if not
            (bit_and (scope_of self.now parent).flags.bits ScopeFlags.StrictMode.bits == 0)
            then bit_or flags.bits ScopeFlags.StrictMode.bits else flags.bits) }
    {
        let parent_flags = self.scope_flags(parent);
        if parent_flags.is_strict_mode() {
            flags.union(ScopeFlags::StrictMode)
        } else {
            flags
        }
    }
}
