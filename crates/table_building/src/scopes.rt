//! Scopes and references, as they come up on the walk.

ghost use Rattle.std.specs.Prelude.{◌≡◌, ◌<◌, None, Some, length, unwrap_or, IfOk, OnOk};
ghost use Rattle.std.specs.Option.{option_map_or};
ghost use Rattle.semantic_syntax.specs.Reading.{scope_of};
ghost use Rattle.semantic_model.specs.ScopeKind.{strict_if};
ghost use Rattle.semantic_syntax.specs.Sets.{meets, union};
ghost use Rattle.semantic_syntax.specs.declared.scope_flags.TheConstants.ScopeFlags as scope_flag;
ghost use Rattle.walk_model.specs.Opens as walked;
ghost use Rattle.table_building.specs.Growth.{Goes};

use crate::declared::Declared;
use resolver::UnresolvedReference;
use semantic_syntax::{Reference, ReferenceFlags, ReferenceId, ScopeFlags, ScopeId};
use semantic_tree::AstKind;
use std::alloc::AllocError;

#[tactic(auto, using(crate::proofs::Growing::growing))]
impl<'a> Declared<'a> {
    /// Opens the root's scope.
    pub(crate) fn open_root(
        &mut self,
        root: AstKind<'_>,
        flags: ScopeFlags,
    ) -> Result<ScopeId, AllocError>
        requires { length self.old.tables.scopes < u32.MAX }
        ensures made { OnOk result
            (self.new ≡ walked.open_in self.old None root.entry.node.now.node_id
            (length self.old.tables.scopes) flags.bits) }
        ensures number { IfOk result (λ s. s ≡ length self.old.tables.scopes) }
        ensures goes { Goes self.old self.new }
        ensures within { IfOk result (λ s. s < length self.new.tables.scopes) }
    {
        let scope = self.scoping.add_scope(None, root.node_id(), flags)?;
        self.tables.set_scope(root.node_id(), scope)?;
        Ok(scope)
    }

    /// Opens a scope with these flags in another one.
    fn open_in(
        &mut self,
        kind: AstKind<'_>,
        outer: ScopeId,
        flags: ScopeFlags,
    ) -> Result<ScopeId, AllocError>
        requires outer { outer < length self.old.tables.scopes }
        requires room { length self.old.tables.scopes < u32.MAX }
        ensures made { OnOk result
            (self.new ≡ walked.open_in self.old (Some outer) kind.entry.node.now.node_id
            (length self.old.tables.scopes) flags.bits) }
        ensures number { IfOk result (λ s. s ≡ length self.old.tables.scopes) }
        ensures goes { Goes self.old self.new }
        ensures within { IfOk result (λ s. s < length self.new.tables.scopes) }
    {
        let scope = self.scoping.add_scope(Some(outer), kind.node_id(), flags)?;
        self.tables.set_scope(kind.node_id(), scope)?;
        Ok(scope)
    }

    /// The flags, strict where the outer scope is (ECMAScript 11.2.2, Strict Mode Code).
    fn flags_within(&self, outer: ScopeId, flags: ScopeFlags) -> ScopeFlags
        requires { outer < length self.now.tables.scopes }
        ensures { result.bits ≡ union flags.bits
            (strict_if (meets (scope_of self.now.tables outer).flags.bits
            scope_flag.StrictMode.bits)) }
    {
        let strict = if self.scoping.scope_flags(outer).is_strict_mode() {
            ScopeFlags::StrictMode
        } else {
            ScopeFlags::empty()
        };
        flags.union(strict)
    }

    /// Opens a scope in another one. It is strict where that one is (ECMAScript 11.2.2, Strict Mode Code).
    pub fn open(
        &mut self,
        kind: AstKind<'_>,
        outer: ScopeId,
        flags: ScopeFlags,
    ) -> Result<ScopeId, AllocError>
        requires outer { outer < length self.old.tables.scopes }
        requires room { length self.old.tables.scopes < u32.MAX }
        ensures made { OnOk result
            (self.new ≡ walked.open_in self.old (Some outer) kind.entry.node.now.node_id
            (length self.old.tables.scopes)
            (union flags.bits (strict_if
            (meets (scope_of self.old.tables outer).flags.bits scope_flag.StrictMode.bits)))) }
        ensures number { IfOk result (λ s. s ≡ length self.old.tables.scopes) }
        ensures goes { Goes self.old self.new }
        ensures within { IfOk result (λ s. s < length self.new.tables.scopes) }
    {
        let flags = self.flags_within(outer, flags);
        self.open_in(kind, outer, flags)
    }

    /// Adds a reference that stands in the scope.
    fn add_reference(
        &mut self,
        kind: AstKind<'_>,
        scope: ScopeId,
        way: ReferenceFlags,
    ) -> Result<ReferenceId, AllocError>
        requires { length self.old.tables.references < u32.MAX }
        ensures made { OnOk result
            (self.new ≡ walked.with_reference_at self.old kind.entry.node.now.node_id scope
            way.bits) }
        ensures number { IfOk result (λ r. r ≡ length self.old.tables.references) }
        ensures goes { Goes self.old self.new }
    {
        let reference = Reference::new(kind.node_id(), scope, way);
        let id = self.scoping.create_reference(reference)?;
        self.tables.set_reference(kind.node_id(), id)?;
        Ok(id)
    }

    /// Notes the reference that a node is. It waits in the scope.
    pub fn refer(
        &mut self,
        kind: AstKind<'a>,
        scope: ScopeId,
        way: ReferenceFlags,
    ) -> Result<(), AllocError>
        requires scope { scope < length self.old.tables.scopes }
        requires room { length self.old.tables.references < u32.MAX }
        ensures made { OnOk result
            (self.new ≡ walked.refer_to self.old kind.entry.node.now.node_id
            kind.entry.node.now.text scope way.bits) }
        ensures goes { Goes self.old self.new }
    {
        let id = self.add_reference(kind, scope, way)?;
        self.pending.push(UnresolvedReference {
            name: kind.text(),
            reference_id: id,
            lookup_scope_id: scope,
        })
    }

    /// Notes a direct call of `eval` in the scope (ECMAScript 19.2.1.1, PerformEval).
    pub fn add_direct_eval(&mut self, scope: ScopeId)
        requires { scope < length self.old.tables.scopes }
        ensures made { self.new ≡ walked.add_eval self.old scope }
        ensures goes { Goes self.old self.new }
    {
        let flags = self.scoping.scope_flags(scope);
        *self.scoping.scope_flags_mut(scope) = flags.union(ScopeFlags::DirectEval);
    }

    /// Notes a call of `eval` in the scope around the scope, if there is one.
    fn add_eval_around(&mut self, scope: ScopeId)
        requires { scope < length self.old.tables.scopes }
        ensures made { self.new
            ≡ option_map_or (walked.add_eval self.old)
            (scope_of self.old.tables scope).parent self.old }
        ensures goes { Goes self.old self.new }
    {
        match self.parent(scope) {
            Some(parent) => self.add_direct_eval(parent),
            None => {}
        }
    }

    /// Closes the scope: a call of `eval` inside is one in the scope around it, too, whose names it sees as well
    /// (ECMAScript 19.2.1.1, PerformEval).
    pub fn close(&mut self, scope: ScopeId)
        requires { scope < length self.old.tables.scopes }
        ensures made { self.new ≡ walked.close_scope self.old scope }
        ensures goes { Goes self.old self.new }
    {
        if self.scoping.scope_flags(scope).contains_direct_eval() {
            self.add_eval_around(scope);
        }
    }

    /// The scope around the scope, or the root's.
    pub fn around(&self, scope: ScopeId) -> ScopeId
        requires { scope < length self.now.tables.scopes }
        ensures value { result ≡ unwrap_or (scope_of self.now.tables scope).parent scope }
        ensures within { result < length self.now.tables.scopes }
    {
        match self.parent(scope) {
            Some(parent) => parent,
            None => scope,
        }
    }
}
