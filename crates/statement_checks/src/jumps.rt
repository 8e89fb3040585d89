//! Early errors of jumps.
ghost use Rattle.std.specs.Prelude.{◌≡◌, ◌||◌, [], option_map, find};
ghost use Rattle.semantic_tree.specs.ChildIter.{shown};
ghost use Rattle.semantic_diagnostics.specs.Statements as tell;
ghost use Rattle.check_model.specs.Groups.{under_labels};
ghost use Rattle.check_model.specs.Jumps as rows;
ghost use Rattle.check_context.specs.Handed.{around, sight, IsContext};
ghost use Rattle.check_context.specs.Tells.{Tells};

use crate::labels::{is_boundary, is_labelled_by};
use check_context::{CheckContext, tell};
use semantic_diagnostics::Diagnostics;
use semantic_diagnostics::makers::{
    invalid_break, invalid_continue, invalid_label_jump_target, invalid_label_non_iteration,
    invalid_label_target,
};
use semantic_syntax::Span;
use semantic_tree::{AstKind, AstType, Role};
use std::alloc::{AllocError, Global};

/// Whether the search for a target ends at the node (ECMAScript 14.9.1, 14.8.1: at a function, a static block or the
/// program).
fn is_end(kind: AstKind<'_>) -> bool
    ensures { result ≡ rows.ends_jump_search kind.entry.node.now }
{
    is_boundary(kind) || kind.ty() == AstType::Program
}

/// Whether a `break` without label goes to the node.
fn is_loop_or_switch(kind: AstKind<'_>) -> bool
    ensures { result ≡ rows.is_loop_or_switch kind.entry.node.now }
{
    kind.is_iteration_statement() || kind.ty() == AstType::SwitchStatement
}

/// The first node outward that a `break` without label meets: its target, or where the search ends.
fn met_by_break<'a>(ctx: &CheckContext<'a, '_>) -> Option<AstKind<'a>>
    requires { IsContext ctx.now }
    ensures { option_map shown result
        ≡ find (λ node. rows.ends_jump_search node || rows.is_loop_or_switch node)
        (around ctx.now).path }
{
    let mut left = ctx.above();
    while let Some(kind) = left.next() {
        if is_end(kind) || is_loop_or_switch(kind) {
            return Some(kind);
        }
    }
    None
}

/// The first node outward that a `continue` without label meets: its target, or where the search ends.
fn met_by_continue<'a>(ctx: &CheckContext<'a, '_>) -> Option<AstKind<'a>>
    requires { IsContext ctx.now }
    ensures { option_map shown result
        ≡ find (λ node. rows.ends_jump_search node || rows.is_loop_node node)
        (around ctx.now).path }
{
    let mut left = ctx.above();
    while let Some(kind) = left.next() {
        if is_end(kind) || kind.is_iteration_statement() {
            return Some(kind);
        }
    }
    None
}

/// The first node outward that a jump to a label meets: its target, or where the search ends.
fn met_by_label<'a>(label: AstKind<'_>, ctx: &CheckContext<'a, '_>) -> Option<AstKind<'a>>
    requires { IsContext ctx.now }
    ensures { option_map shown result
        ≡ find (λ node. rows.ends_jump_search node || rows.is_labelled_by label.entry.node.now node)
        (around ctx.now).path }
{
    let mut left = ctx.above();
    while let Some(kind) = left.next() {
        if is_end(kind) || is_labelled_by(label, kind) {
            return Some(kind);
        }
    }
    None
}

/// Tells of a `break` without label that has no target.
#[tactic(auto, using(check_context::proofs::Telling::made))]
fn tell_plain_break(
    alloc: Global,
    span: Span,
    ctx: &CheckContext<'_, '_>,
    out: &mut Diagnostics,
) -> Result<(), AllocError>
    requires { IsContext ctx.now }
    ensures { Tells result (rows.unlabelled_rows rows.is_loop_or_switch (tell.invalid_break span)
        (around ctx.now).path) out.old out.new }
{
    let Some(met) = met_by_break(ctx) else {
        return Ok(());
    };
    if is_loop_or_switch(met) {
        return Ok(());
    }
    tell(invalid_break(alloc, span), out)
}

/// Tells of a `continue` without label that has no target.
#[tactic(auto, using(check_context::proofs::Telling::made))]
fn tell_plain_continue(
    alloc: Global,
    span: Span,
    ctx: &CheckContext<'_, '_>,
    out: &mut Diagnostics,
) -> Result<(), AllocError>
    requires { IsContext ctx.now }
    ensures { Tells result (rows.unlabelled_rows rows.is_loop_node (tell.invalid_continue span)
        (around ctx.now).path) out.old out.new }
{
    let Some(met) = met_by_continue(ctx) else {
        return Ok(());
    };
    if met.is_iteration_statement() {
        return Ok(());
    }
    tell(invalid_continue(alloc, span), out)
}

/// Tells of a jump to a label that leaves a function, or whose label no statement around has.
#[tactic(auto, using(check_context::proofs::Telling::made))]
fn tell_unmet(
    alloc: Global,
    label: AstKind<'_>,
    met: AstKind<'_>,
    out: &mut Diagnostics,
) -> Result<(), AllocError>
    ensures { Tells result (rows.met_rows (λ target. []) label.entry.node.now met.entry.node.now)
        out.old out.new }
{
    if is_boundary(met) {
        return tell(invalid_label_jump_target(alloc, label.span()), out);
    }
    if met.ty() == AstType::Program {
        return tell(invalid_label_target(alloc, label.span()), out);
    }
    Ok(())
}

/// A `break` has a target in its function (ECMAScript 14.9.1, ContainsUndefinedBreakTarget).
#[tactic(auto, using(check_context::proofs::Telling::telling))]
pub fn check_break_statement<'a>(
    alloc: Global,
    kind: AstKind<'a>,
    ctx: &CheckContext<'a, '_>,
    out: &mut Diagnostics,
) -> Result<(), AllocError>
    requires { IsContext ctx.now }
    ensures { Tells result (rows.check_break_statement (sight kind.entry.node.now ctx.now)) out.old
        out.new }
{
    let Some(label) = kind.child(Role::Label) else {
        return tell_plain_break(alloc, kind.span(), ctx, out);
    };
    match met_by_label(label, ctx) {
        Some(met) => tell_unmet(alloc, label, met, out),
        None => Ok(()),
    }
}

/// The statement under nested labels.
#[tactic(auto, using(crate::proofs::UnderLabels::under))]
fn under_labels(kind: AstKind<'_>) -> AstKind<'_>
    ensures { result.node.now ≡ under_labels kind.entry.node.now }
{
    let mut inner = kind;
    while inner.ty() == AstType::LabeledStatement {
        match inner.child(Role::Body) {
            Some(body) => inner = body,
            None => return inner,
        }
    }
    inner
}

/// Tells of a `continue` whose label, on the statement that it goes to, labels no loop.
#[tactic(auto, using(check_context::proofs::Telling::made, semantic_diagnostics::proofs::AsciiTexts::ascii_texts))]
fn tell_no_loop(
    alloc: Global,
    label: AstKind<'_>,
    target: AstKind<'_>,
    out: &mut Diagnostics,
) -> Result<(), AllocError>
    ensures { Tells result (rows.continue_rows label.entry.node.now target.entry.node.now) out.old
        out.new }
{
    if under_labels(target).is_iteration_statement() {
        return Ok(());
    }
    let Some(own) = target.child(Role::Label) else {
        return Ok(());
    };
    tell(
        invalid_label_non_iteration(alloc, "continue", own.span(), label.span()),
        out,
    )
}

/// Tells of a `continue` to a label by what it meets.
#[tactic(auto, using(check_context::proofs::Telling::telling))]
fn tell_met_by_continue(
    alloc: Global,
    label: AstKind<'_>,
    met: AstKind<'_>,
    out: &mut Diagnostics,
) -> Result<(), AllocError>
    ensures { Tells result (rows.met_rows
        (rows.continue_rows label.entry.node.now) label.entry.node.now met.entry.node.now) out.old
        out.new }
{
    if is_end(met) {
        tell_unmet(alloc, label, met, out)
    } else {
        tell_no_loop(alloc, label, met, out)
    }
}

/// A `continue` has a loop as its target in its function (ECMAScript 14.8.1, ContainsUndefinedContinueTarget).
#[tactic(auto, using(check_context::proofs::Telling::telling))]
pub fn check_continue_statement<'a>(
    alloc: Global,
    kind: AstKind<'a>,
    ctx: &CheckContext<'a, '_>,
    out: &mut Diagnostics,
) -> Result<(), AllocError>
    requires { IsContext ctx.now }
    ensures { Tells result (rows.check_continue_statement (sight kind.entry.node.now ctx.now))
        out.old out.new }
{
    let Some(label) = kind.child(Role::Label) else {
        return tell_plain_continue(alloc, kind.span(), ctx, out);
    };
    match met_by_label(label, ctx) {
        Some(met) => tell_met_by_continue(alloc, label, met, out),
        None => Ok(()),
    }
}
