//! Checks of parts of a node, which are asked of several kinds.
ghost use Rattle.std.specs.Prelude.{◌≡◌, ◌++◌};
ghost use Rattle.check_model.specs.TypedLoops as typed;
ghost use Rattle.check_model.specs.Variables.{check_for_statement_left};
ghost use Rattle.check_model.specs.Rows as rows;
ghost use Rattle.check_context.specs.Handed.{around, sight, IsContext};
ghost use Rattle.check_context.specs.Tells.{Tells};

use crate::{javascript, typescript};
use check_context::CheckContext;
use semantic_diagnostics::Diagnostics;
use semantic_tree::{AstKind, Role};
use std::alloc::{AllocError, Global};

/// What the rules tell of the name that the node is (ECMAScript 13.1.1).
pub(crate) fn check_own_name(
    alloc: Global,
    kind: AstKind<'_>,
    ctx: &CheckContext<'_, '_>,
    out: &mut Diagnostics,
) -> Result<(), AllocError>
    requires { IsContext ctx.now }
    ensures { Tells result (rows.own_identifier_rows (sight kind.entry.node.now ctx.now)) out.old
        out.new }
{
    javascript::check_identifier(alloc, kind.text(), kind.span(), ctx, out)
}

/// What the rules tell of the child in the role, which is the body of a statement, under `if` or not (ECMAScript
/// 14.6, 14.7, Annex B.3.3).
pub(crate) fn check_body(
    alloc: Global,
    kind: AstKind<'_>,
    role: Role,
    under_if: bool,
    ctx: &CheckContext<'_, '_>,
    out: &mut Diagnostics,
) -> Result<(), AllocError>
    requires { IsContext ctx.now }
    ensures { Tells result (rows.body_rows role under_if (sight kind.entry.node.now ctx.now))
        out.old out.new }
{
    match kind.child(role) {
        Some(body) => javascript::check_function_declaration(alloc, body, under_if, ctx, out),
        None => Ok(()),
    }
}

/// What the rules tell of the body of a label (ECMAScript 14.13.1, Annex B.3.1).
pub(crate) fn check_labelled_body(
    alloc: Global,
    kind: AstKind<'_>,
    ctx: &CheckContext<'_, '_>,
    out: &mut Diagnostics,
) -> Result<(), AllocError>
    requires { IsContext ctx.now }
    ensures { Tells result (rows.labelled_body_rows (sight kind.entry.node.now ctx.now)) out.old
        out.new }
{
    match kind.child(Role::Body) {
        Some(body) => {
            javascript::check_function_declaration_in_labeled_statement(alloc, body, ctx, out)
        }
        None => Ok(()),
    }
}

/// What the rules of both languages tell of the left of a loop (ECMAScript 14.7.5.1).
fn check_left_child(
    alloc: Global,
    left: AstKind<'_>,
    for_in: bool,
    ctx: &CheckContext<'_, '_>,
    out: &mut Diagnostics,
) -> Result<(), AllocError>
    requires { IsContext ctx.now }
    ensures { let s = around ctx.now in
        Tells result (check_for_statement_left left.entry.node.now for_in s
        ++ typed.check_typed_for_statement_left left.entry.node.now for_in s) out.old out.new }
{
    javascript::check_for_statement_left(alloc, left, for_in, ctx, out)?;
    typescript::check_for_statement_left(alloc, left, for_in, ctx, out)
}

/// What the rules tell of the left of a loop, if it has one.
pub(crate) fn check_left(
    alloc: Global,
    kind: AstKind<'_>,
    for_in: bool,
    ctx: &CheckContext<'_, '_>,
    out: &mut Diagnostics,
) -> Result<(), AllocError>
    requires { IsContext ctx.now }
    ensures { Tells result (rows.left_rows for_in (sight kind.entry.node.now ctx.now)) out.old
        out.new }
{
    match kind.child(Role::Left) {
        Some(left) => check_left_child(alloc, left, for_in, ctx, out),
        None => Ok(()),
    }
}
