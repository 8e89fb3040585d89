//! Scopes that get another parent.
ghost use Rattle.std.specs.Prelude.{◌≡◌, ◌<◌, length, nat_eq, false, IfSome};
ghost use Rattle.std.specs.List.{list_any};
ghost use Rattle.semantic_syntax.specs.Reading.{scope_of, chain};
ghost use Rattle.semantic_syntax.specs.Writing.{with_scope};

use super::Scoping;
use semantic_syntax::ScopeId;

impl Scoping {
    /// Gives the scope another parent, from which it is not reached outward.
    pub fn set_scope_parent_id(&mut self, scope: ScopeId, parent: Option<ScopeId>)
        requires scope { scope < length self.old.scopes }
        requires parent { IfSome parent (λ p. p < length self.old.scopes) }
        requires acyclic { IfSome parent
            (λ p. list_any (nat_eq scope) (chain self.old.scopes p) ≡ false) }
        ensures { self.new ≡ with_scope self.old scope
            (record (scope_of self.old scope) { parent = parent }) }
    {
        let row = &mut self.scopes[scope.index()];
        row.parent = parent;
    }

    /// Sets the scope's parent, as `set_scope_parent_id` does.
    pub fn change_scope_parent_id(&mut self, scope: ScopeId, parent: Option<ScopeId>)
        requires scope { scope < length self.old.scopes }
        requires parent { IfSome parent (λ p. p < length self.old.scopes) }
        requires acyclic { IfSome parent
            (λ p. list_any (nat_eq scope) (chain self.old.scopes p) ≡ false) }
        ensures { self.new ≡ with_scope self.old scope
            (record (scope_of self.old scope) { parent = parent }) }
    {
        self.set_scope_parent_id(scope, parent);
    }
}
