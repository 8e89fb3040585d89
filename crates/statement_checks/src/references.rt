//! Early errors of identifier references.
ghost use Rattle.std.specs.Prelude.{◌≡◌, ◌||◌, ◌++◌, option_map, find, codes};
ghost use Rattle.std.specs.Str.{bytes_eq};
ghost use Rattle.semantic_kinds.specs.Classes.{is_member};
ghost use Rattle.semantic_kinds.specs.declared.kind.AstType.TheVariants as kinds;
ghost use Rattle.semantic_tree.specs.ChildIter.{shown};
ghost use Rattle.semantic_tree.specs.Views.{is};
ghost use Rattle.semantic_tree.specs.declared.node.Node.{Node};
ghost use Rattle.semantic_diagnostics.specs.Names as tell;
ghost use Rattle.check_model.specs.Names as rows;
ghost use Rattle.check_model.specs.Search.{row_if, rows_if};
ghost use Rattle.check_context.specs.Handed.{around, sight, IsContext};
ghost use Rattle.check_context.specs.Shown.{link_shown};
ghost use Rattle.check_context.specs.Tells.{Tells};

use crate::names::{is_eval_or_arguments, tell_assignment};
use check_context::{CheckContext, Links, is_child_in, is_same, tell};
use node_rules::questions::reads;
use semantic_diagnostics::Diagnostics;
use semantic_diagnostics::makers::unexpected_arguments;
use semantic_syntax::Span;
use semantic_tree::{AstKind, AstType, Role};
use std::alloc::{AllocError, Global};

/// Whether nodes of the kind are parts of an assignment's target, or updates.
fn is_target(kind: AstType) -> bool
    ensures { result ≡ rows.is_updated_target kind }
{
    matches!(
        kind,
        AstType::ObjectAssignmentTarget
            | AstType::ArrayAssignmentTarget
            | AstType::AssignmentTargetPropertyIdentifier
            | AstType::UpdateExpression
    )
}

/// Whether the node assigns to the name itself.
fn assigns_to(name: AstKind<'_>, node: AstKind<'_>) -> bool
    ensures { result ≡ rows.assigns_to name.entry.node.now.text node.entry.node.now }
{
    if node.ty() == AstType::AssignmentExpression {
        match node.child(Role::Left) {
            Some(left) => left.ty() == AstType::IdentifierReference && is_same(left, name),
            None => false,
        }
    } else {
        false
    }
}

/// Whether what stands around a name writes to it (ECMAScript 8.6.4, AssignmentTargetType).
fn writes_to(name: AstKind<'_>, node: AstKind<'_>) -> bool
    ensures { result ≡ rows.writes_to name.entry.node.now.text node.entry.node.now }
{
    is_target(node.ty()) || assigns_to(name, node)
}

/// The first node around that is a member expression or writes to the name.
fn met_by_write<'a>(name: AstKind<'_>, ctx: &CheckContext<'a, '_>) -> Option<AstKind<'a>>
    requires { IsContext ctx.now }
    ensures { option_map shown result
        ≡ find (λ node. is_member node.kind || rows.writes_to name.entry.node.now.text node)
        (around ctx.now).path }
{
    let mut left = ctx.above();
    while let Some(node) = left.next() {
        if node.is_member_expression_kind() || writes_to(name, node) {
            return Some(node);
        }
    }
    None
}

/// Whether a write to the name comes before any member expression, going outward.
fn is_written(name: AstKind<'_>, ctx: &CheckContext<'_, '_>) -> bool
    requires { IsContext ctx.now }
    ensures { result ≡ rows.is_write_outward (sight name.entry.node.now ctx.now) }
{
    match met_by_write(name, ctx) {
        Some(met) => !met.is_member_expression_kind(),
        None => false,
    }
}

/// Whether strict code writes to `eval` or `arguments`.
fn is_bad_write(name: AstKind<'_>, ctx: &CheckContext<'_, '_>) -> bool
    requires { IsContext ctx.now }
    ensures { result ≡ rows.is_bad_write (sight name.entry.node.now ctx.now) }
{
    is_eval_or_arguments(name) && ctx.is_strict() && is_written(name, ctx)
}

/// Whether the child is the value of a property of a class.
fn is_field_value(child: AstKind<'_>, parent: AstKind<'_>) -> bool
    ensures { let link : Node × Node = (child.entry.node.now, parent.entry.node.now) in
        result ≡ rows.is_field_value link }
{
    parent.ty() == AstType::PropertyDefinition && is_child_in(Role::Value, parent, child)
}

/// Whether `arguments` belongs to the parent, as far as it is reached from the child (ECMAScript 15.7.1,
/// ContainsArguments).
fn owns_arguments(child: AstKind<'_>, parent: AstKind<'_>) -> bool
    ensures { let link : Node × Node = (child.entry.node.now, parent.entry.node.now) in
        result ≡ (is kinds.Function link.1
        || (rows.is_field_value link || rows.is_static_block link)) }
{
    parent.ty() == AstType::Function
        || is_field_value(child, parent)
        || parent.ty() == AstType::StaticBlock
}

/// The innermost owner of `arguments` around a reference, with the child that it is reached from.
fn owner_of_arguments<'a>(
    kind: AstKind<'a>,
    ctx: &CheckContext<'a, '_>,
) -> Option<(AstKind<'a>, AstKind<'a>)>
    requires { IsContext ctx.now }
    ensures { option_map link_shown result
        ≡ rows.owner_of_arguments (sight kind.entry.node.now ctx.now) }
{
    let mut left = Links::new(kind, ctx.above());
    while let Some((child, parent)) = left.next() {
        if owns_arguments(child, parent) {
            return Some((child, parent));
        }
    }
    None
}

/// Tells of `arguments` in the value of a field or in a static block.
#[tactic(auto, using(check_context::proofs::Telling::made, semantic_diagnostics::proofs::AsciiTexts::ascii_texts))]
fn tell_arguments(
    alloc: Global,
    span: Span,
    child: AstKind<'_>,
    parent: AstKind<'_>,
    out: &mut Diagnostics,
) -> Result<(), AllocError>
    ensures { let link : Node × Node = (child.entry.node.now, parent.entry.node.now) in
        Tells result (row_if (rows.is_field_value link)
        (tell.unexpected_arguments (codes "class field initializer") span)
        ++ row_if (rows.is_static_block link)
        (tell.unexpected_arguments (codes "static initialization block") span)) out.old out.new }
{
    if is_field_value(child, parent) {
        let place = "class field initializer";
        return tell(unexpected_arguments(alloc, place, span), out);
    }
    if parent.ty() == AstType::StaticBlock {
        let place = "static initialization block";
        return tell(unexpected_arguments(alloc, place, span), out);
    }
    Ok(())
}

/// Tells of a reference that is called `arguments`, in a place that has none, going outward.
#[tactic(auto, using(check_context::proofs::Telling::telling))]
fn tell_if_arguments<'a>(
    alloc: Global,
    kind: AstKind<'a>,
    ctx: &CheckContext<'a, '_>,
    out: &mut Diagnostics,
) -> Result<(), AllocError>
    requires { IsContext ctx.now }
    ensures { let s = sight kind.entry.node.now ctx.now in
        Tells result (rows_if (bytes_eq s.node.text (codes "arguments")) (rows.arguments_rows s))
        out.old out.new }
{
    if !reads(kind, "arguments") {
        return Ok(());
    }
    match owner_of_arguments(kind, ctx) {
        Some((child, parent)) => tell_arguments(alloc, kind.span(), child, parent, out),
        None => Ok(()),
    }
}

/// Strict code doesn't write to `eval` and `arguments` (ECMAScript 13.1.3, 13.15.1, AssignmentTargetType), and fields
/// and static blocks have no `arguments` (15.7.1, ContainsArguments), except in a definition file.
#[tactic(auto, using(check_context::proofs::Telling::telling))]
pub fn check_identifier_reference<'a>(
    alloc: Global,
    kind: AstKind<'a>,
    ctx: &CheckContext<'a, '_>,
    out: &mut Diagnostics,
) -> Result<(), AllocError>
    requires { IsContext ctx.now }
    ensures { Tells result (rows.check_identifier_reference (sight kind.entry.node.now ctx.now))
        out.old out.new }
{
    if ctx.source_type.is_typescript_definition() {
        Ok(())
    } else if is_bad_write(kind, ctx) {
        tell_assignment(alloc, kind, ctx, out)
    } else {
        tell_if_arguments(alloc, kind, ctx, out)
    }
}
