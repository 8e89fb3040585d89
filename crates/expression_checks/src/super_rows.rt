//! Early errors of `super`.
ghost use Rattle.std.specs.Prelude.{◌≡◌, ◌∷◌, [], not, option_map};
ghost use Rattle.std.specs.Option.{option_and_then};
ghost use Rattle.semantic_kinds.specs.declared.role.Role.TheVariants as roles;
ghost use Rattle.semantic_tree.specs.ChildIter.{shown};
ghost use Rattle.semantic_tree.specs.Views.{has_child};
ghost use Rattle.semantic_diagnostics.specs.Functions as tell;
ghost use Rattle.check_model.specs.Search.{first, row_if};
ghost use Rattle.check_model.specs.Super as rows;
ghost use Rattle.check_model.specs.Surroundings.{node_by_id};
ghost use Rattle.check_context.specs.Handed.{sight, IsContext};
ghost use Rattle.check_context.specs.Tells.{Tells};
ghost use Rattle.expression_checks.specs.Searches.{classes_kept, found_shown, ClassIsKept};

use crate::super_search::{Found, first_verdict};
use crate::verdict::{Verdict, call_around, is_call};
use check_context::{CheckContext, has_child, node_of, tell};
use semantic_diagnostics::Diagnostics;
use semantic_diagnostics::makers::{
    super_without_derived_class, unexpected_super_call, unexpected_super_reference,
};
use semantic_syntax::ClassId;
use semantic_tree::{AstKind, Role};
use std::alloc::{AllocError, Global};

/// Tells of a `super` that stands wrong, or of its call.
#[tactic(auto, using(check_context::proofs::Telling::made))]
fn tell_refused<'a>(
    alloc: Global,
    kind: AstKind<'a>,
    ctx: &CheckContext<'a, '_>,
    out: &mut Diagnostics,
) -> Result<(), AllocError>
    requires { IsContext ctx.now }
    ensures { let s = sight kind.entry.node.now ctx.now in
        Tells result (rows.refused_row s (rows.call_around s) ∷ []) out.old out.new }
{
    match call_around(ctx) {
        Some(call) => tell(unexpected_super_call(alloc, call.span()), out),
        None => tell(unexpected_super_reference(alloc, kind.span()), out),
    }
}

/// Tells of the call of a `super` that may stand there but not be called.
#[tactic(auto, using(check_context::proofs::Telling::telling))]
fn tell_call<'a>(
    alloc: Global,
    kind: AstKind<'a>,
    ctx: &CheckContext<'a, '_>,
    out: &mut Diagnostics,
) -> Result<(), AllocError>
    requires { IsContext ctx.now }
    ensures { let s = sight kind.entry.node.now ctx.now in
        Tells result (row_if (rows.is_call s) (rows.refused_row s (rows.call_around s))) out.old
        out.new }
{
    if is_call(ctx) {
        tell_refused(alloc, kind, ctx, out)
    } else {
        Ok(())
    }
}

/// The node of a class that there may be, as far as it is on the path.
fn node_of_kept<'a>(
    kind: AstKind<'a>,
    kept: Option<ClassId>,
    ctx: &CheckContext<'a, '_>,
) -> Option<AstKind<'a>>
    requires context { IsContext ctx.now }
    requires kept { ClassIsKept ctx.now kept }
    ensures { option_map shown result
        ≡ option_and_then (λ class. node_by_id (sight kind.entry.node.now ctx.now) class.node)
        (first (classes_kept ctx.now kept)) }
{
    match kept {
        Some(class) => node_of(ctx.classes.classes.get_node_id(class), kind, ctx.above()),
        None => None,
    }
}

/// Tells of a `super` that is called in a class without heritage (ECMAScript 15.7.1, HasDirectSuper).
#[tactic(auto, using(check_context::proofs::Telling::made))]
fn tell_underived(
    alloc: Global,
    kind: AstKind<'_>,
    class: AstKind<'_>,
    out: &mut Diagnostics,
) -> Result<(), AllocError>
    ensures { let class = class.entry.node.now in
        Tells result (row_if (not (has_child roles.Heritage class))
        (tell.super_without_derived_class kind.entry.node.now.span class.span)) out.old out.new }
{
    if has_child(class, Role::Heritage) {
        Ok(())
    } else {
        tell(
            super_without_derived_class(alloc, kind.span(), class.span()),
            out,
        )
    }
}

/// Tells of a `super` that is called in a constructor, if its class has no heritage.
#[tactic(auto, using(check_context::proofs::Telling::telling))]
fn tell_derived<'a>(
    alloc: Global,
    kind: AstKind<'a>,
    kept: Option<ClassId>,
    ctx: &CheckContext<'a, '_>,
    out: &mut Diagnostics,
) -> Result<(), AllocError>
    requires context { IsContext ctx.now }
    requires kept { ClassIsKept ctx.now kept }
    ensures { Tells result (rows.derived_rows (sight kind.entry.node.now ctx.now)
        (classes_kept ctx.now kept)) out.old out.new }
{
    match node_of_kept(kind, kept, ctx) {
        Some(class) => tell_underived(alloc, kind, class, out),
        None => Ok(()),
    }
}

/// Tells what follows from a verdict.
#[tactic(auto, using(check_context::proofs::Telling::telling))]
fn tell_verdict<'a>(
    alloc: Global,
    kind: AstKind<'a>,
    found: Found,
    ctx: &CheckContext<'a, '_>,
    out: &mut Diagnostics,
) -> Result<(), AllocError>
    requires context { IsContext ctx.now }
    requires kept { ClassIsKept ctx.now found.kept }
    ensures { Tells result (rows.verdict_rows (sight kind.entry.node.now ctx.now)
        (found_shown ctx.now found)) out.old out.new }
{
    match found.verdict {
        Verdict::Allowed => Ok(()),
        Verdict::AllowedUnlessCall => tell_call(alloc, kind, ctx, out),
        Verdict::AllowedInDerived => tell_derived(alloc, kind, found.kept, ctx, out),
        Verdict::Refused => tell_refused(alloc, kind, ctx, out),
    }
}

/// `super` stands in a method or a field, and its call in the constructor of a derived class (ECMAScript 15.7.1,
/// 13.2.5.1, HasDirectSuper; 15.2.1; `TS(2337)`).
#[tactic(auto, using(check_context::proofs::Telling::telling))]
pub fn check_super<'a>(
    alloc: Global,
    kind: AstKind<'a>,
    ctx: &CheckContext<'a, '_>,
    out: &mut Diagnostics,
) -> Result<(), AllocError>
    requires { IsContext ctx.now }
    ensures { Tells result (rows.check_super (sight kind.entry.node.now ctx.now)) out.old out.new }
{
    let found = first_verdict(kind, ctx);
    tell_verdict(alloc, kind, found, ctx, out)
}
