//! Early errors of annotations: JSDoc types, and type predicates.
ghost use Rattle.std.specs.Prelude.{◌≡◌, ◌<◌, ◌++◌, true, codes, option_map, slice_range, string_bytes, IfOk};
ghost use Rattle.std.specs.Str.{chars};
ghost use Rattle.semantic_kinds.specs.declared.kind.AstType.TheVariants as kinds;
ghost use Rattle.semantic_tree.specs.ChildIter.{shown};
ghost use Rattle.semantic_tree.specs.Sound.{is_sound, shows};
ghost use Rattle.node_store.specs.PathLeft.{path_left};
ghost use Rattle.check_model.specs.Types as rows;
ghost use Rattle.check_context.specs.Handed.{around, sight, IsContext};
ghost use Rattle.check_context.specs.Tells.{Tells};
ghost use Rattle.type_checks.specs.GoodTypes.{has_good_type, HasGoodSpan, HasGoodType};

use check_context::{CheckContext, tell};
use node_rules::questions::reads;
use node_store::AncestorKinds;
use semantic_diagnostics::Diagnostics;
use semantic_diagnostics::makers::{jsdoc_type_in_annotation, type_predicate_only_in_return_type};
use semantic_tree::sound::has_good_span;
use semantic_tree::{AstKind, AstType, Mark, Role};
use std::alloc::{AllocError, Global};

/// Whether the type that a node annotates, if it has one, stands in the source, on characters, and shows its mark there.
pub fn has_good_type(kind: AstKind<'_>, ctx: &CheckContext<'_, '_>) -> bool
    ensures { result ≡ has_good_type kind.entry.node.now ctx.now }
{
    match kind.child(Role::Element) {
        Some(annotated) => has_good_span(ctx.source_text, annotated.node()),
        None => true,
    }
}

/// The source text of a JSDoc type without its mark.
fn unmarked_text<'a>(kind: AstKind<'_>, mark: char, source: &'a str) -> &'a str
    requires ascii { mark < 128 }
    requires sound { is_sound source.now kind.node.now.span ≡ true }
    requires marked { shows source.now kind.node.now mark ≡ true }
    ensures { let node = kind.entry.node.now in
        let span = rows.unmarked (rows.is_at_start node) node.span in
        result.now ≡ slice_range source.now span.start span.end }
{
    let span = kind.span();
    if kind.has_mark(Mark::Postfix) {
        span.shrink_right(1).source_text(source)
    } else {
        span.shrink_left(1).source_text(source)
    }
}

/// What TypeScript has for a `?` type.
fn nullable_text(alloc: Global, text: &str) -> Result<String, AllocError>
    ensures { IfOk result (λ made. chars (string_bytes made)
        ≡ chars text.now ++ codes " | null | undefined") }
{
    let made = format!(in alloc; "{text} | null | undefined")?;
    Ok(made)
}

/// Tells of a `?` type of JSDoc (`TS(17020)` with the mark in front, `TS(17019)` behind).
#[tactic(auto, using(check_context::proofs::Telling::made))]
fn tell_nullable(
    alloc: Global,
    kind: AstKind<'_>,
    ctx: &CheckContext<'_, '_>,
    out: &mut Diagnostics,
) -> Result<(), AllocError>
    requires sound { is_sound ctx.now.source_text.now kind.node.now.span ≡ true }
    requires marked { shows ctx.now.source_text.now kind.node.now 63 ≡ true }
    ensures { Tells result (rows.jsdoc_rows
        (around ctx.now) kinds.JSDocNullableType kind.entry.node.now) out.old out.new }
{
    let text = nullable_text(alloc, unmarked_text(kind, '?', ctx.source_text))?;
    let at_start = !kind.has_mark(Mark::Postfix);
    tell(
        jsdoc_type_in_annotation(alloc, '?', at_start, kind.span(), text.as_str()),
        out,
    )
}

/// Tells of a `!` type of JSDoc, likewise.
#[tactic(auto, using(check_context::proofs::Telling::made))]
fn tell_non_nullable(
    alloc: Global,
    kind: AstKind<'_>,
    ctx: &CheckContext<'_, '_>,
    out: &mut Diagnostics,
) -> Result<(), AllocError>
    requires sound { is_sound ctx.now.source_text.now kind.node.now.span ≡ true }
    requires marked { shows ctx.now.source_text.now kind.node.now 33 ≡ true }
    ensures { Tells result (rows.jsdoc_rows
        (around ctx.now) kinds.JSDocNonNullableType kind.entry.node.now) out.old out.new }
{
    let text = unmarked_text(kind, '!', ctx.source_text);
    let at_start = !kind.has_mark(Mark::Postfix);
    tell(
        jsdoc_type_in_annotation(alloc, '!', at_start, kind.span(), text),
        out,
    )
}

/// Tells of a type that JSDoc has and TypeScript has not.
fn tell_jsdoc(
    alloc: Global,
    kind: AstKind<'_>,
    ctx: &CheckContext<'_, '_>,
    out: &mut Diagnostics,
) -> Result<(), AllocError>
    requires { HasGoodSpan ctx.now kind.node.now }
    ensures { let node = kind.entry.node.now in
        Tells result (rows.jsdoc_rows (around ctx.now) node.kind node) out.old out.new }
{
    match kind.ty() {
        AstType::JSDocNullableType => tell_nullable(alloc, kind, ctx, out),
        AstType::JSDocNonNullableType => tell_non_nullable(alloc, kind, ctx, out),
        _ => Ok(()),
    }
}

/// An annotation is no `?` or `!` type of JSDoc (`TS(17019)`, `TS(17020)`).
pub fn check_ts_type_annotation<'a>(
    alloc: Global,
    kind: AstKind<'a>,
    ctx: &CheckContext<'a, '_>,
    out: &mut Diagnostics,
) -> Result<(), AllocError>
    requires { HasGoodType kind.node.now ctx.now }
    ensures { Tells result (rows.check_ts_type_annotation (sight kind.entry.node.now ctx.now))
        out.old out.new }
{
    match kind.child(Role::Element) {
        Some(annotated) => tell_jsdoc(alloc, annotated, ctx, out),
        None => Ok(()),
    }
}

/// Whether a function is neither a getter, a setter nor a constructor, by the node around it.
fn is_plain_value(parent: Option<AstKind<'_>>) -> bool
    ensures { result ≡ rows.is_plain_value (option_map shown parent.entry) }
{
    let Some(parent) = parent else {
        return true;
    };
    match parent.ty() {
        AstType::MethodDefinition => reads(parent, "method"),
        AstType::ObjectProperty => reads(parent, "init"),
        _ => true,
    }
}

/// Whether what is annotated may return a type predicate, by what stands around it.
fn may_return_predicate(kind: AstKind<'_>, above: AncestorKinds<'_, '_>) -> bool
    ensures { let node = kind.entry.node.now in
        result ≡ rows.may_return_predicate node.kind node (path_left above.entry) }
{
    let mut left = above;
    match kind.ty() {
        AstType::ArrowFunctionExpression
        | AstType::TSFunctionType
        | AstType::TSCallSignatureDeclaration => true,
        AstType::TSMethodSignature => reads(kind, "method"),
        AstType::Function => is_plain_value(left.next()),
        _ => false,
    }
}

/// Whether the path around is that of a returned type.
fn is_predicate_path(ctx: &CheckContext<'_, '_>) -> bool
    requires { IsContext ctx.now }
    ensures { result ≡ rows.is_predicate_path (around ctx.now).path }
{
    let mut left = ctx.above();
    let Some(annotation) = left.next() else {
        return false;
    };
    let Some(annotated) = left.next() else {
        return false;
    };
    annotation.ty() == AstType::TSTypeAnnotation && may_return_predicate(annotated, left)
}

/// A type predicate stands where a function's or a method's type is returned (`TS(1228)`).
#[tactic(auto, using(check_context::proofs::Telling::made))]
pub fn check_ts_type_predicate<'a>(
    alloc: Global,
    kind: AstKind<'a>,
    ctx: &CheckContext<'a, '_>,
    out: &mut Diagnostics,
) -> Result<(), AllocError>
    requires { IsContext ctx.now }
    ensures { Tells result (rows.check_ts_type_predicate (sight kind.entry.node.now ctx.now))
        out.old out.new }
{
    if is_predicate_path(ctx) {
        Ok(())
    } else {
        tell(type_predicate_only_in_return_type(alloc, kind.span()), out)
    }
}
