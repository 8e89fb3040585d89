//! The search outward for the scope that decides about a `super`.
ghost use Rattle.std.specs.Prelude.{◌≡◌, ◌<◌, if◌then◌else◌, Some, None, drop, length, option_map};
ghost use Rattle.check_model.specs.Context.{seen_row};
ghost use Rattle.check_model.specs.Super as rows;
ghost use Rattle.check_context.specs.Handed.{sight, IsContext};
ghost use Rattle.expression_checks.specs.Searches.{classes_kept, found_shown, ClassIsKept, IsSearching};
ghost use Rattle.expression_checks.specs.Verdicts.{verdict_shown};

use crate::verdict::{Verdict, scope_verdict};
use crate::way::Way;
use check_context::CheckContext;
use semantic_syntax::{ClassId, NodeId, ScopeId};
use semantic_tree::AstKind;

/// What is found: the verdict, and the class that the search had come to.
#[derive(Clone, Copy)]
pub(crate) struct Found {
    pub(crate) verdict: Verdict,
    pub(crate) kept: Option<ClassId>,
}

/// How far a search has come.
#[derive(Drop)]
struct Searching<'n, 'a> {
    way: Way<'n, 'a>,
    /// The node that opens the scope before, or the `super` where there was none.
    from: NodeId,
    /// The innermost class whose scope the search hasn't passed.
    kept: Option<ClassId>,
}

impl<'n, 'a> Searching<'n, 'a> {
    /// A search that begins at the `super`, in the current class.
    fn new(kind: AstKind<'a>, ctx: &CheckContext<'a, 'n>) -> Searching<'n, 'a>
        requires { IsContext ctx.now }
        ensures searching { IsSearching kind.entry.node.now ctx.now result }
        ensures from { result.from ≡ kind.entry.node.now.node_id }
        ensures kept { result.kept ≡ ctx.now.classes.now.current_class_id }
    {
        Searching {
            way: Way::new(kind, ctx),
            from: kind.node_id(),
            kept: ctx.classes.current_class_id,
        }
    }

    /// Whether the scope is that of the kept class.
    fn is_class_scope(&self, scope: ScopeId, ctx: &CheckContext<'a, 'n>) -> bool
        requires scope { scope < length ctx.now.scoping.now.scopes }
        requires kept { ClassIsKept ctx.now self.now.kept }
        ensures { result ≡ rows.is_scope_of (classes_kept ctx.now self.now.kept)
            (seen_row ctx.now.scoping.now scope) }
    {
        match self.kept {
            Some(class) => ctx.classes.classes.get_node_id(class) == ctx.scoping.get_node_id(scope),
            None => false,
        }
    }

    /// What the scope of the kept class decides, if anything.
    fn class_verdict(
        &mut self,
        scope: ScopeId,
        kind: AstKind<'a>,
        ctx: &CheckContext<'a, 'n>,
    ) -> Option<Verdict>
        requires context { IsContext ctx.now }
        requires scope { scope < length ctx.now.scoping.now.scopes }
        requires searching { IsSearching kind.node.now ctx.now self.old }
        ensures verdict { option_map verdict_shown result
            ≡ (if rows.leaves_value (sight kind.entry.node.now ctx.now) self.old.from
            (seen_row ctx.now.scoping.now scope).opener then Some rows.allowed_unless_call
            else None) }
        ensures searching { IsSearching kind.entry.node.now ctx.now self.new }
        ensures from { self.new.from ≡ self.old.from }
        ensures kept { self.new.kept ≡ self.old.kept }
    {
        self.way.go_to(self.from, kind, ctx);
        if self.way.leaves_value(ctx.scoping.get_node_id(scope)) {
            Some(Verdict::AllowedUnlessCall)
        } else {
            None
        }
    }

    /// What a scope decides, if anything.
    fn decides(
        &mut self,
        scope: ScopeId,
        kind: AstKind<'a>,
        ctx: &CheckContext<'a, 'n>,
    ) -> Option<Verdict>
        requires context { IsContext ctx.now }
        requires scope { scope < length ctx.now.scoping.now.scopes }
        requires searching { IsSearching kind.node.now ctx.now self.old }
        ensures verdict { option_map verdict_shown result
            ≡ rows.decides (sight kind.entry.node.now ctx.now)
            (classes_kept ctx.now self.old.kept) self.old.from
            (seen_row ctx.now.scoping.now scope) }
        ensures searching { IsSearching kind.entry.node.now ctx.now self.new }
        ensures from { self.new.from ≡ self.old.from }
        ensures kept { self.new.kept ≡ self.old.kept }
    {
        if self.is_class_scope(scope, ctx) {
            self.class_verdict(scope, kind, ctx)
        } else {
            scope_verdict(scope, kind, ctx)
        }
    }

    /// Passes a scope that decides nothing; behind that of the kept class the class around it is kept.
    fn pass(&mut self, scope: ScopeId, ctx: &CheckContext<'a, 'n>)
        requires scope { scope < length ctx.now.scoping.now.scopes }
        requires kept { ClassIsKept ctx.now self.old.kept }
        ensures kept { classes_kept ctx.now self.new.kept
            ≡ rows.kept_after (classes_kept ctx.now self.old.kept)
            (seen_row ctx.now.scoping.now scope) }
        ensures there { ClassIsKept ctx.now self.new.kept }
        ensures from { self.new.from ≡ (seen_row ctx.now.scoping.now scope).opener }
        ensures way { self.new.way ≡ self.old.way }
    {
        if self.is_class_scope(scope, ctx) {
            self.kept = outer_kept(self.kept, ctx);
        }
        self.from = ctx.scoping.get_node_id(scope);
    }
}

/// The class around a class that there may be.
fn outer_kept(kept: Option<ClassId>, ctx: &CheckContext<'_, '_>) -> Option<ClassId>
    requires { ClassIsKept ctx.now kept }
    ensures outward { classes_kept ctx.now result ≡ drop 1 (classes_kept ctx.now kept) }
    ensures there { ClassIsKept ctx.now result }
{
    match kept {
        Some(class) => ctx.outer_class(class),
        None => None,
    }
}

/// What the first scope outward decides that decides anything, with the class that is kept there.
pub(crate) fn first_verdict<'a>(kind: AstKind<'a>, ctx: &CheckContext<'a, '_>) -> Found
    requires { IsContext ctx.now }
    ensures found { let s = sight kind.entry.node.now ctx.now in
        found_shown ctx.now result ≡ rows.search_from s s.classes s.node.node_id s.scopes }
    ensures kept { ClassIsKept ctx.now result.kept }
{
    ctx.scoping.attest();
    let mut state = Searching::new(kind, ctx);
    let mut left = Some(ctx.current_scope_id);
    while let Some(scope) = left {
        match state.decides(scope, kind, ctx) {
            Some(verdict) => {
                return Found {
                    verdict,
                    kept: state.kept,
                };
            }
            None => {
                state.pass(scope, ctx);
                left = ctx.outer_scope(scope);
            }
        }
    }
    Found {
        verdict: Verdict::Refused,
        kept: state.kept,
    }
}
