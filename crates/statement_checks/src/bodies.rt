//! Early errors of functions that stand as bodies of statements, and of `with`.
ghost use Rattle.std.specs.Prelude.{◌≡◌};
ghost use Rattle.check_model.specs.Bodies as rows;
ghost use Rattle.check_context.specs.Handed.{around, sight, IsContext, IsHanded};
ghost use Rattle.check_context.specs.Tells.{Tells};

use check_context::{CheckContext, first_bytes, is_declared_function, tell};
use semantic_diagnostics::Diagnostics;
use semantic_diagnostics::makers::{
    function_declaration_non_strict, function_declaration_strict, with_statement,
};
use semantic_tree::{AstKind, AstType};
use std::alloc::{AllocError, Global};

/// A declared function is no body of a statement, except under `if` in sloppy code (ECMAScript 14.6, 14.7, Annex
/// B.3.3). The node is the body, and the context that of its statement.
#[tactic(auto, using(check_context::proofs::Telling::made))]
pub fn check_function_declaration<'a>(
    alloc: Global,
    kind: AstKind<'a>,
    under_if: bool,
    ctx: &CheckContext<'a, '_>,
    out: &mut Diagnostics,
) -> Result<(), AllocError>
    requires { IsContext ctx.now }
    ensures { Tells result (rows.check_function_declaration kind.entry.node.now under_if
        (around ctx.now)) out.old out.new }
{
    if !is_declared_function(kind) {
        return Ok(());
    }
    if ctx.is_strict() {
        return tell(function_declaration_strict(alloc, kind.span()), out);
    }
    if under_if {
        return Ok(());
    }
    tell(function_declaration_non_strict(alloc, kind.span()), out)
}

/// Whether nodes of the kind are statements with a body that is no block of its own.
fn has_single_body(kind: AstKind<'_>) -> bool
    ensures { result ≡ rows.has_single_body kind.entry.node.now.kind }
{
    matches!(kind.ty(), AstType::WithStatement | AstType::IfStatement)
        || kind.is_iteration_statement()
}

/// Whether a labelled statement is, outside its labels, the body of a loop, a `with` or an `if`.
fn is_single_body(ctx: &CheckContext<'_, '_>) -> bool
    requires { IsContext ctx.now }
    ensures { result ≡ rows.is_single_body (around ctx.now) }
{
    let mut left = ctx.above();
    while let Some(kind) = left.next() {
        if kind.ty() != AstType::LabeledStatement {
            return has_single_body(kind);
        }
    }
    false
}

/// A declared function has a label only in sloppy code, and not as a body of a statement (ECMAScript 14.13.1, Annex
/// B.3.1). The node is the body, and the context that of its label.
#[tactic(auto, using(check_context::proofs::Telling::made))]
pub fn check_function_declaration_in_labeled_statement<'a>(
    alloc: Global,
    kind: AstKind<'a>,
    ctx: &CheckContext<'a, '_>,
    out: &mut Diagnostics,
) -> Result<(), AllocError>
    requires { IsContext ctx.now }
    ensures { Tells result (rows.check_function_declaration_in_labeled_statement kind.entry.node.now
        (around ctx.now)) out.old out.new }
{
    if !is_declared_function(kind) {
        return Ok(());
    }
    if ctx.is_strict() {
        return tell(function_declaration_strict(alloc, kind.span()), out);
    }
    if is_single_body(ctx) {
        return tell(function_declaration_non_strict(alloc, kind.span()), out);
    }
    Ok(())
}

/// Neither strict code nor TypeScript has `with` (ECMAScript 14.11.1; TypeScript 2410).
#[tactic(auto, using(check_context::proofs::Telling::made))]
pub fn check_with_statement<'a>(
    alloc: Global,
    kind: AstKind<'a>,
    ctx: &CheckContext<'a, '_>,
    out: &mut Diagnostics,
) -> Result<(), AllocError>
    requires { IsHanded kind.node.now ctx.now }
    ensures { Tells result (rows.check_with_statement (sight kind.entry.node.now ctx.now)) out.old
        out.new }
{
    if ctx.is_strict() || ctx.source_type.is_typescript() {
        tell(with_statement(alloc, first_bytes(4, kind.span())), out)
    } else {
        Ok(())
    }
}
