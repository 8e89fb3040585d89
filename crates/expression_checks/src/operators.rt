//! Early errors of `delete`.
ghost use Rattle.std.specs.Prelude.{◌≡◌, ◌∷◌, []};
ghost use Rattle.semantic_diagnostics.specs.Functions as tell;
ghost use Rattle.semantic_kinds.specs.declared.role.Role.TheVariants as roles;
ghost use Rattle.semantic_tree.specs.Views.{child_of};
ghost use Rattle.check_model.specs.Expressions as rows;
ghost use Rattle.check_model.specs.Search.{row_if, rows_of_some};
ghost use Rattle.check_model.specs.Surroundings.{is_strict};
ghost use Rattle.check_context.specs.Handed.{around, sight, IsContext};
ghost use Rattle.check_context.specs.Tells.{Tells};

use check_context::{CheckContext, tell};
use node_rules::questions::reads;
use semantic_diagnostics::Diagnostics;
use semantic_diagnostics::makers::{delete_of_unqualified, delete_private_field};
use semantic_tree::{AstKind, AstType, Role};
use std::alloc::{AllocError, Global};

/// Tells of a name that strict code deletes.
#[tactic(auto, using(check_context::proofs::Telling::made))]
fn tell_name(
    alloc: Global,
    name: AstKind<'_>,
    ctx: &CheckContext<'_, '_>,
    out: &mut Diagnostics,
) -> Result<(), AllocError>
    requires { IsContext ctx.now }
    ensures { Tells result (row_if (is_strict (around ctx.now))
        (tell.delete_of_unqualified name.entry.node.now.span)) out.old out.new }
{
    if ctx.is_strict() {
        tell(delete_of_unqualified(alloc, name.span()), out)
    } else {
        Ok(())
    }
}

/// Tells of a private member, or of its name.
#[tactic(auto, using(check_context::proofs::Telling::made))]
fn tell_private(alloc: Global, member: AstKind<'_>, out: &mut Diagnostics) -> Result<(), AllocError>
    ensures { Tells result (tell.delete_private_field member.entry.node.now.span ∷ []) out.old
        out.new }
{
    tell(delete_private_field(alloc, member.span()), out)
}

/// Tells of what an optional chain ends with, at its name, if it is a private member.
#[tactic(auto, using(check_context::proofs::Telling::telling))]
fn tell_member(alloc: Global, member: AstKind<'_>, out: &mut Diagnostics) -> Result<(), AllocError>
    ensures { Tells result (rows.chained_rows member.entry.node.now) out.old out.new }
{
    if member.ty() == AstType::PrivateFieldExpression {
        match member.child(Role::Field) {
            Some(field) => tell_private(alloc, field, out),
            None => Ok(()),
        }
    } else {
        Ok(())
    }
}

/// Tells of a private member that an optional chain ends with.
#[tactic(auto, using(check_context::proofs::Telling::telling))]
fn tell_chain(alloc: Global, chain: AstKind<'_>, out: &mut Diagnostics) -> Result<(), AllocError>
    ensures { Tells result (rows_of_some rows.chained_rows
        (child_of roles.Expression chain.entry.node.now)) out.old out.new }
{
    match chain.child(Role::Expression) {
        Some(member) => tell_member(alloc, member, out),
        None => Ok(()),
    }
}

/// Tells of what is deleted, by its kind.
#[tactic(auto, using(check_context::proofs::Telling::telling))]
fn tell_operand(
    alloc: Global,
    operand: AstKind<'_>,
    ctx: &CheckContext<'_, '_>,
    out: &mut Diagnostics,
) -> Result<(), AllocError>
    requires { IsContext ctx.now }
    ensures { Tells result (rows.operand_rows (around ctx.now) operand.entry.node.now) out.old
        out.new }
{
    match operand.ty() {
        AstType::IdentifierReference => tell_name(alloc, operand, ctx, out),
        AstType::PrivateFieldExpression => tell_private(alloc, operand, out),
        AstType::ChainExpression => tell_chain(alloc, operand, out),
        _ => Ok(()),
    }
}

/// Strict code deletes no name, and no code deletes a private member (ECMAScript 13.5.1.1), whatever parentheses and
/// wrappers of TypeScript stand round it.
#[tactic(auto, using(check_context::proofs::Telling::telling))]
pub fn check_unary_expression<'a>(
    alloc: Global,
    kind: AstKind<'a>,
    ctx: &CheckContext<'a, '_>,
    out: &mut Diagnostics,
) -> Result<(), AllocError>
    requires { IsContext ctx.now }
    ensures { Tells result (rows.check_unary_expression (sight kind.entry.node.now ctx.now)) out.old
        out.new }
{
    if !reads(kind, "delete") {
        return Ok(());
    }
    match kind.child(Role::Argument) {
        Some(argument) => tell_operand(alloc, argument.get_inner_expression(), ctx, out),
        None => Ok(()),
    }
}
