//! Early errors of `await` and `yield`.
ghost use Rattle.std.specs.Prelude.{◌≡◌, ◌||◌, IsTrue, option_map, find, codes};
ghost use Rattle.semantic_tree.specs.declared.node.Node.{Node};
ghost use Rattle.semantic_kinds.specs.Ascii.{is_ascii};
ghost use Rattle.semantic_diagnostics.specs.Functions as tell;
ghost use Rattle.semantic_diagnostics.specs.Names as tell_of;
ghost use Rattle.check_model.specs.Expressions as rows;
ghost use Rattle.check_model.specs.Groups.{is_function};
ghost use Rattle.check_model.specs.Search.{row_if};
ghost use Rattle.check_model.specs.Surroundings.{first_bytes, is_in_static_block, links};
ghost use Rattle.check_context.specs.Handed.{sight, IsContext, IsHanded};
ghost use Rattle.check_context.specs.Shown.{link_shown};
ghost use Rattle.check_context.specs.Tells.{Tells};

use check_context::{CheckContext, Links, first_bytes, tell};
use semantic_diagnostics::Diagnostics;
use semantic_diagnostics::makers::{await_or_yield_in_parameter, class_static_block_await};
use semantic_syntax::Span;
use semantic_tree::{AstKind, AstType};
use std::alloc::{AllocError, Global};

/// Whether nodes of the kind are functions or arrows.
fn is_function(kind: AstType) -> bool
    ensures { result ≡ is_function kind }
{
    matches!(kind, AstType::Function | AstType::ArrowFunctionExpression)
}

/// Whether the parent is a parameter, or the child a rest and its parent a rest parameter.
fn enters_parameter(child: AstKind<'_>, parent: AstKind<'_>) -> bool
    ensures { let link : Node × Node = (child.entry.node.now, parent.entry.node.now) in
        result ≡ rows.enters_parameter link }
{
    parent.ty() == AstType::FormalParameter
        || (child.ty() == AstType::BindingRestElement
            && parent.ty() == AstType::FormalParameterRest)
}

/// The first link of the way outward that enters a parameter or a function, which is its end.
fn parameter_or_function<'a>(
    kind: AstKind<'a>,
    ctx: &CheckContext<'a, '_>,
) -> Option<(AstKind<'a>, AstKind<'a>)>
    requires { IsContext ctx.now }
    ensures { option_map link_shown result
        ≡ find (λ link. rows.enters_parameter link || is_function link.1.kind)
        (links (sight kind.entry.node.now ctx.now)) }
{
    let mut left = Links::new(kind, ctx.above());
    while let Some((child, parent)) = left.next() {
        if enters_parameter(child, parent) || is_function(parent.ty()) {
            return Some((child, parent));
        }
    }
    None
}

/// Whether a parameter comes before any function, going outward.
fn is_in_parameter<'a>(kind: AstKind<'a>, ctx: &CheckContext<'a, '_>) -> bool
    requires { IsContext ctx.now }
    ensures { result ≡ rows.is_in_parameter (sight kind.entry.node.now ctx.now) }
{
    match parameter_or_function(kind, ctx) {
        Some((child, parent)) => enters_parameter(child, parent),
        None => false,
    }
}

/// Tells of an expression of the keyword, if it stands in a parameter.
#[tactic(auto, using(check_context::proofs::Telling::made, semantic_diagnostics::proofs::AsciiTexts::ascii_texts))]
fn tell_keyword_if(
    alloc: Global,
    is_there: bool,
    keyword: &str,
    span: Span,
    out: &mut Diagnostics,
) -> Result<(), AllocError>
    requires { IsTrue (is_ascii keyword.now) }
    ensures { Tells result (row_if is_there (tell.await_or_yield_in_parameter keyword.now span))
        out.old out.new }
{
    if is_there {
        tell(await_or_yield_in_parameter(alloc, keyword, span), out)
    } else {
        Ok(())
    }
}

/// Tells of an expression of the keyword in a parameter.
#[tactic(auto, using(check_context::proofs::Telling::telling))]
fn tell_in_parameter<'a>(
    alloc: Global,
    keyword: &str,
    kind: AstKind<'a>,
    ctx: &CheckContext<'a, '_>,
    out: &mut Diagnostics,
) -> Result<(), AllocError>
    requires context { IsContext ctx.now }
    requires keyword { IsTrue (is_ascii keyword.now) }
    ensures { let s = sight kind.entry.node.now ctx.now in
        Tells result (row_if (rows.is_in_parameter s)
        (tell.await_or_yield_in_parameter keyword.now s.node.span)) out.old out.new }
{
    let is_there = is_in_parameter(kind, ctx);
    tell_keyword_if(alloc, is_there, keyword, kind.span(), out)
}

/// Tells of `await` in a static block (ECMAScript 15.7.1, Contains `await`).
#[tactic(auto, using(check_context::proofs::Telling::made))]
fn tell_in_block<'a>(
    alloc: Global,
    kind: AstKind<'a>,
    ctx: &CheckContext<'a, '_>,
    out: &mut Diagnostics,
) -> Result<(), AllocError>
    requires { IsHanded kind.node.now ctx.now }
    ensures { let s = sight kind.entry.node.now ctx.now in
        Tells result (row_if (is_in_static_block s)
        (tell_of.class_static_block_await (first_bytes 5 s.node.span))) out.old out.new }
{
    if ctx.is_in_static_block() {
        tell(
            class_static_block_await(alloc, first_bytes(5, kind.span())),
            out,
        )
    } else {
        Ok(())
    }
}

/// Parameters and static blocks don't await (ECMAScript 15.8.1, 15.9.1, Contains AwaitExpression; 15.7.1, Contains
/// `await`).
#[tactic(auto, using(check_context::proofs::Telling::telling))]
pub fn check_await_expression<'a>(
    alloc: Global,
    kind: AstKind<'a>,
    ctx: &CheckContext<'a, '_>,
    out: &mut Diagnostics,
) -> Result<(), AllocError>
    requires { IsHanded kind.node.now ctx.now }
    ensures { Tells result (rows.check_await_expression (sight kind.entry.node.now ctx.now)) out.old
        out.new }
{
    tell_in_parameter(alloc, "await", kind, ctx, out)?;
    tell_in_block(alloc, kind, ctx, out)
}

/// Parameters don't yield (ECMAScript 15.5.1, Contains YieldExpression).
#[tactic(auto, using(check_context::proofs::Telling::telling))]
pub fn check_yield_expression<'a>(
    alloc: Global,
    kind: AstKind<'a>,
    ctx: &CheckContext<'a, '_>,
    out: &mut Diagnostics,
) -> Result<(), AllocError>
    requires { IsContext ctx.now }
    ensures { Tells result (rows.check_yield_expression (sight kind.entry.node.now ctx.now)) out.old
        out.new }
{
    tell_in_parameter(alloc, "yield", kind, ctx, out)
}
