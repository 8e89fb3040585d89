//! Early errors of literals and directives.
ghost use Rattle.std.specs.Prelude.{◌≡◌, ◌||◌, not};
ghost use Rattle.semantic_kinds.specs.declared.mark.Mark.TheVariants as mark;
ghost use Rattle.semantic_kinds.specs.declared.role.Role.TheVariants as roles;
ghost use Rattle.semantic_tree.specs.Views.{has, whose};
ghost use Rattle.semantic_tree.specs.BoundNames.{is_simple_parameter_list};
ghost use Rattle.semantic_diagnostics.specs.Names as tell;
ghost use Rattle.check_model.specs.Literals as rows;
ghost use Rattle.check_model.specs.Search.{row_if, rows_of_some};
ghost use Rattle.check_context.specs.Handed.{sight, IsContext, IsHanded};
ghost use Rattle.check_context.specs.Tells.{Tells};

use crate::escapes::{BadEscape, first_bad};
use check_context::{CheckContext, node_of, tell};
use node_rules::questions::reads;
use semantic_diagnostics::Diagnostics;
use semantic_diagnostics::makers::{
    illegal_use_strict, leading_zero_decimal, legacy_octal, non_octal_decimal_escape_sequence,
};
use semantic_syntax::Span;
use semantic_tree::{AstKind, AstType, Mark, Role};
use std::alloc::{AllocError, Global};

/// Whether a digit stands in front.
fn begins_with_digit(bytes: &[u8]) -> bool
    ensures { result ≡ rows.begins_with_digit bytes.now }
{
    match bytes.first() {
        Some(byte) => byte.is_ascii_digit(),
        None => false,
    }
}

/// Whether a zero and a digit stand in front of a spelling.
fn has_leading_zero(spelling: &[u8]) -> bool
    ensures { result ≡ rows.has_leading_zero spelling.now }
{
    match spelling.split_first() {
        Some((first, rest)) => *first == b'0' && begins_with_digit(rest),
        None => false,
    }
}

/// Tells of a number with a leading zero in the octal base (ECMAScript 12.9.3, LegacyOctalIntegerLiteral).
#[tactic(auto, using(check_context::proofs::Telling::made))]
fn tell_octal(alloc: Global, kind: AstKind<'_>, out: &mut Diagnostics) -> Result<(), AllocError>
    ensures { Tells result (row_if (has mark.Octal kind.entry.node.now)
        (tell.legacy_octal kind.entry.node.now.span)) out.old out.new }
{
    if kind.has_mark(Mark::Octal) {
        tell(legacy_octal(alloc, kind.span()), out)
    } else {
        Ok(())
    }
}

/// Tells of a number with a leading zero in base ten (ECMAScript 12.9.3, NonOctalDecimalIntegerLiteral).
#[tactic(auto, using(check_context::proofs::Telling::made))]
fn tell_decimal(alloc: Global, kind: AstKind<'_>, out: &mut Diagnostics) -> Result<(), AllocError>
    ensures { Tells result (row_if
        (has mark.Decimal kind.entry.node.now || has mark.Float kind.entry.node.now)
        (tell.leading_zero_decimal kind.entry.node.now.span)) out.old out.new }
{
    if kind.has_mark(Mark::Decimal) || kind.has_mark(Mark::Float) {
        tell(leading_zero_decimal(alloc, kind.span()), out)
    } else {
        Ok(())
    }
}

/// Tells of a number with a leading zero, by its base.
#[tactic(auto, using(check_context::proofs::Telling::telling))]
fn tell_leading_zero(
    alloc: Global,
    kind: AstKind<'_>,
    out: &mut Diagnostics,
) -> Result<(), AllocError>
    ensures { Tells result (rows.leading_zero_rows kind.entry.node.now) out.old out.new }
{
    tell_octal(alloc, kind, out)?;
    tell_decimal(alloc, kind, out)
}

/// Strict code has no numbers with leading zeros (ECMAScript 12.9.3.1).
#[tactic(auto, using(check_context::proofs::Telling::telling))]
pub fn check_number_literal<'a>(
    alloc: Global,
    kind: AstKind<'a>,
    ctx: &CheckContext<'a, '_>,
    out: &mut Diagnostics,
) -> Result<(), AllocError>
    requires { IsContext ctx.now }
    ensures { Tells result (rows.check_number_literal (sight kind.entry.node.now ctx.now)) out.old
        out.new }
{
    if ctx.is_strict() && has_leading_zero(kind.node().text.as_str().as_bytes()) {
        tell_leading_zero(alloc, kind, out)
    } else {
        Ok(())
    }
}

/// Tells of the first bad escape of a string, if there is one.
#[tactic(auto, using(crate::proofs::FirstBad::rows, check_context::proofs::Telling::made))]
fn tell_escapes(
    alloc: Global,
    raw: &[u8],
    span: Span,
    out: &mut Diagnostics,
) -> Result<(), AllocError>
    ensures { Tells result (rows_of_some (rows.escape_rows span) (rows.first_bad_escape raw.now))
        out.old out.new }
{
    match first_bad(raw) {
        Some(BadEscape::Octal) => tell(legacy_octal(alloc, span), out),
        Some(BadEscape::EightOrNine) => tell(non_octal_decimal_escape_sequence(alloc, span), out),
        None => Ok(()),
    }
}

/// Strict code has no octal escapes, and no `\8` and `\9` (ECMAScript 12.9.4.1). The first one is told, of a string
/// that isn't written as it reads: its raw bytes, with the quotes, aren't as many as those that it means.
#[tactic(auto, using(check_context::proofs::Telling::telling))]
pub fn check_string_literal<'a>(
    alloc: Global,
    kind: AstKind<'a>,
    ctx: &CheckContext<'a, '_>,
    out: &mut Diagnostics,
) -> Result<(), AllocError>
    requires { IsHanded kind.node.now ctx.now }
    ensures { Tells result (rows.check_string_literal (sight kind.entry.node.now ctx.now)) out.old
        out.new }
{
    if !ctx.is_strict() || ctx.is_under(AstType::JSXAttribute) {
        return Ok(());
    }
    let raw = ctx.bytes_at(kind.span());
    if raw.len() == kind.node().text.as_str().len() {
        return Ok(());
    }
    tell_escapes(alloc, raw, kind.span(), out)
}

/// Whether the node has parameters that are not simple (ECMAScript 15.1.3, IsSimpleParameterList).
fn is_complex(opener: AstKind<'_>) -> bool
    ensures { result ≡ whose roles.Params
        (λ params. not (is_simple_parameter_list params)) opener.entry.node.now }
{
    match opener.child(Role::Params) {
        Some(params) => !params.is_simple_parameter_list(),
        None => false,
    }
}

/// Whether the parameters of the function whose scope is the current one are not simple.
#[tactic(auto, using(check_context::proofs::Outward::here))]
fn has_complex_parameters(kind: AstKind<'_>, ctx: &CheckContext<'_, '_>) -> bool
    requires { IsContext ctx.now }
    ensures { result ≡ rows.has_complex_parameters (sight kind.entry.node.now ctx.now) }
{
    match node_of(ctx.scope_node(), kind, ctx.above()) {
        Some(opener) => is_complex(opener),
        None => false,
    }
}

/// A function makes itself strict only if its parameters are simple (ECMAScript 15.2.1, 15.3.1).
#[tactic(auto, using(check_context::proofs::Telling::made))]
pub fn check_directive<'a>(
    alloc: Global,
    kind: AstKind<'a>,
    ctx: &CheckContext<'a, '_>,
    out: &mut Diagnostics,
) -> Result<(), AllocError>
    requires { IsContext ctx.now }
    ensures { Tells result (rows.check_directive (sight kind.entry.node.now ctx.now)) out.old
        out.new }
{
    if reads(kind, "use strict") && ctx.is_in_function() && has_complex_parameters(kind, ctx) {
        tell(illegal_use_strict(alloc, kind.span()), out)
    } else {
        Ok(())
    }
}
