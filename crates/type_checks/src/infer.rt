//! Early errors of `infer`.
ghost use Rattle.std.specs.Prelude.{◌≡◌};
ghost use Rattle.std.specs.List.{list_any};
ghost use Rattle.check_model.specs.Types as rows;
ghost use Rattle.check_context.specs.Handed.{around, sight, IsContext};
ghost use Rattle.check_context.specs.Tells.{Tells};

use check_context::{CheckContext, tell};
use semantic_diagnostics::Diagnostics;
use semantic_diagnostics::makers::infer_declaration_only_permitted_in_extends_clause;
use semantic_syntax::Span;
use semantic_tree::{AstKind, AstType, Role};
use std::alloc::{AllocError, Global};

/// Whether the outer span holds the inner one.
fn holds(outer: Span, inner: Span) -> bool
    ensures { result ≡ rows.span_holds outer inner }
{
    outer.contains_inclusive(inner)
}

/// Whether the node is a conditional type that extends something around the span.
fn extends_over(span: Span, kind: AstKind<'_>) -> bool
    ensures { result ≡ rows.extends_over span kind.entry.node.now }
{
    if kind.ty() == AstType::TSConditionalType {
        match kind.child(Role::Extends) {
            Some(extended) => holds(extended.span(), span),
            None => false,
        }
    } else {
        false
    }
}

/// Whether a conditional type around extends something around the span.
fn is_extended_over(span: Span, ctx: &CheckContext<'_, '_>) -> bool
    requires { IsContext ctx.now }
    ensures { result ≡ list_any (rows.extends_over span) (around ctx.now).path }
{
    let mut left = ctx.above();
    while let Some(kind) = left.next() {
        if extends_over(span, kind) {
            return true;
        }
    }
    false
}

/// `infer` stands in what a conditional type extends (`TS(1338)`).
#[tactic(auto, using(check_context::proofs::Telling::made))]
pub fn check_ts_infer_type<'a>(
    alloc: Global,
    kind: AstKind<'a>,
    ctx: &CheckContext<'a, '_>,
    out: &mut Diagnostics,
) -> Result<(), AllocError>
    requires { IsContext ctx.now }
    ensures { Tells result (rows.check_ts_infer_type (sight kind.entry.node.now ctx.now)) out.old
        out.new }
{
    if is_extended_over(kind.span(), ctx) {
        Ok(())
    } else {
        tell(
            infer_declaration_only_permitted_in_extends_clause(alloc, kind.span()),
            out,
        )
    }
}
