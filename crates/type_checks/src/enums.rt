//! Early errors of enums.
ghost use Rattle.std.specs.Prelude.{◌≡◌, not, option_map};
ghost use Rattle.semantic_tree.specs.ChildIter.{shown};
ghost use Rattle.semantic_diagnostics.specs.Types as tell;
ghost use Rattle.check_model.specs.Search.{row_if, rows_of_some};
ghost use Rattle.check_model.specs.Types as rows;
ghost use Rattle.check_context.specs.Handed.{sight, IsContext};
ghost use Rattle.check_context.specs.Tells.{Tells};

use check_context::{CheckContext, tell};
use semantic_diagnostics::Diagnostics;
use semantic_diagnostics::makers::enum_member_must_have_initializer;
use semantic_tree::{AstKind, AstType, Role};
use std::alloc::{AllocError, Global};

/// Whether TypeScript can count on after an initializer.
fn counts_on(initializer: AstKind<'_>) -> bool
    ensures { result ≡ rows.counts_on initializer.entry.node.now }
{
    let inner = initializer.without_parentheses();
    match inner.ty() {
        AstType::NumericLiteral
        | AstType::IdentifierReference
        | AstType::BinaryExpression
        | AstType::UnaryExpression => true,
        _ => inner.is_member_expression_kind(),
    }
}

/// Tells of a member without initializer, by the last initializer before it.
#[tactic(auto, using(check_context::proofs::Telling::made))]
fn tell_uncounted(
    alloc: Global,
    before: Option<AstKind<'_>>,
    member: AstKind<'_>,
    out: &mut Diagnostics,
) -> Result<(), AllocError>
    ensures { Tells result (rows_of_some
        (λ initializer. row_if (not (rows.counts_on initializer))
        (tell.enum_member_must_have_initializer member.entry.node.now.span))
        (option_map shown before.entry)) out.old out.new }
{
    let Some(initializer) = before else {
        return Ok(());
    };
    if counts_on(initializer) {
        return Ok(());
    }
    tell(enum_member_must_have_initializer(alloc, member.span()), out)
}

/// Tells of each member without initializer.
#[tactic(auto, using(check_context::proofs::Telling::loop_telling))]
fn tell_members(alloc: Global, body: AstKind<'_>, out: &mut Diagnostics) -> Result<(), AllocError>
    ensures { Tells result (rows.enum_rows body.entry.node.now) out.old out.new }
{
    let mut last = None;
    for member in body.children(Role::Members) {
        match member.child(Role::Initializer) {
            Some(initializer) => last = Some(initializer),
            None => tell_uncounted(alloc, last, member, out)?,
        }
    }
    Ok(())
}

/// A member without initializer follows one after which TypeScript can count on (TypeScript 1061).
#[tactic(auto, using(check_context::proofs::Telling::telling))]
pub fn check_ts_enum_declaration<'a>(
    alloc: Global,
    kind: AstKind<'a>,
    ctx: &CheckContext<'a, '_>,
    out: &mut Diagnostics,
) -> Result<(), AllocError>
    requires { IsContext ctx.now }
    ensures { Tells result (rows.check_ts_enum_declaration (sight kind.entry.node.now ctx.now))
        out.old out.new }
{
    match kind.child(Role::Body) {
        Some(body) => tell_members(alloc, body, out),
        None => Ok(()),
    }
}
