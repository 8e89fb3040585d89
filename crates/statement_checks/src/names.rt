//! Early errors of names.
ghost use Rattle.std.specs.Prelude.{◌≡◌, ◌∷◌, [], option_map};
ghost use Rattle.std.specs.Str.{chars};
ghost use Rattle.semantic_kinds.specs.declared.kind.AstType.TheVariants as kinds;
ghost use Rattle.semantic_tree.specs.ChildIter.{shown};
ghost use Rattle.semantic_tree.specs.Views.{is};
ghost use Rattle.semantic_diagnostics.specs.Names as tell;
ghost use Rattle.check_model.specs.Names as rows;
ghost use Rattle.check_model.specs.Search.{find_before};
ghost use Rattle.check_context.specs.Handed.{around, sight, IsContext};
ghost use Rattle.check_context.specs.Tells.{Tells};

use check_context::{CheckContext, tell};
use node_rules::questions::reads;
use semantic_diagnostics::makers::{
    class_static_block_await, invalid_let_declaration, private_not_in_class, reserved_keyword,
    unexpected_identifier_assign,
};
use semantic_diagnostics::{
    Diagnostics, ReservedKeywordContext, UnexpectedIdentifierAssignContext,
};
use semantic_kinds::class::is_word;
use semantic_syntax::{Ident, Span};
use semantic_tree::{AstKind, AstType};
use std::alloc::{AllocError, Global};

/// Whether strict code reserves the name (ECMAScript 12.7.2, Keywords and Reserved Words).
fn is_reserved(name: &str) -> bool
    ensures { result ≡ rows.is_strict_reserved (chars name.now) }
{
    is_word(name, "implements")
        || is_word(name, "interface")
        || is_word(name, "let")
        || is_word(name, "package")
        || is_word(name, "private")
        || is_word(name, "protected")
        || is_word(name, "public")
        || is_word(name, "static")
        || is_word(name, "yield")
}

/// Why a word is reserved in strict code.
fn reserved_because(ctx: &CheckContext<'_, '_>) -> ReservedKeywordContext
    requires { IsContext ctx.now }
    ensures { result ≡ rows.reserved_because (around ctx.now) }
{
    if ctx.is_in_class() {
        ReservedKeywordContext::Class
    } else if ctx.source_type.is_module() {
        ReservedKeywordContext::Module
    } else {
        ReservedKeywordContext::StrictMode
    }
}

/// Tells of `await` as a name, where it is none: in a module, and directly in a static block (ECMAScript 13.1.1).
#[tactic(auto, using(check_context::proofs::Telling::made))]
fn tell_await(
    alloc: Global,
    name: Ident<'_>,
    span: Span,
    ctx: &CheckContext<'_, '_>,
    out: &mut Diagnostics,
) -> Result<(), AllocError>
    requires { IsContext ctx.now }
    ensures { Tells result (rows.await_rows (chars name.entry.text.now) span (around ctx.now))
        out.old out.new }
{
    if ctx.source_type.is_module() {
        let context = ReservedKeywordContext::ModuleAwait;
        return tell(reserved_keyword(alloc, name.as_str(), span, context), out);
    }
    if ctx.is_static_block() {
        return tell(class_static_block_await(alloc, span), out);
    }
    Ok(())
}

/// A name is no reserved word, except in ambient code (ECMAScript 13.1.1, 12.7.2). The name is that of a binding
/// identifier, an identifier reference or a label.
#[tactic(auto, using(check_context::proofs::Telling::made))]
pub fn check_identifier<'a>(
    alloc: Global,
    name: Ident<'a>,
    span: Span,
    ctx: &CheckContext<'a, '_>,
    out: &mut Diagnostics,
) -> Result<(), AllocError>
    requires { IsContext ctx.now }
    ensures { Tells result (rows.check_identifier (chars name.entry.text.now) span (around ctx.now))
        out.old out.new }
{
    if ctx.in_ambient {
        return Ok(());
    }
    if is_word(name.as_str(), "await") {
        return tell_await(alloc, name, span, ctx, out);
    }
    if is_reserved(name.as_str()) && ctx.is_strict() {
        let context = reserved_because(ctx);
        return tell(reserved_keyword(alloc, name.as_str(), span, context), out);
    }
    Ok(())
}

/// Whether the node is `eval` or `arguments`, which strict code protects (ECMAScript 13.1.1).
pub(crate) fn is_eval_or_arguments(kind: AstKind<'_>) -> bool
    ensures { result ≡ rows.is_eval_or_arguments kind.entry.node.now.text }
{
    reads(kind, "eval") || reads(kind, "arguments")
}

/// Why nothing may be assigned to a name in strict code.
fn not_assigned_because(ctx: &CheckContext<'_, '_>) -> UnexpectedIdentifierAssignContext
    requires { IsContext ctx.now }
    ensures { result ≡ rows.not_assigned_because (around ctx.now) }
{
    if ctx.is_in_class() {
        UnexpectedIdentifierAssignContext::Class
    } else if ctx.source_type.is_module() {
        UnexpectedIdentifierAssignContext::Module
    } else {
        UnexpectedIdentifierAssignContext::StrictMode
    }
}

/// Tells of an assignment to a name that strict code protects.
#[tactic(auto, using(check_context::proofs::Telling::made))]
pub(crate) fn tell_assignment(
    alloc: Global,
    kind: AstKind<'_>,
    ctx: &CheckContext<'_, '_>,
    out: &mut Diagnostics,
) -> Result<(), AllocError>
    requires { IsContext ctx.now }
    ensures { let node = kind.entry.node.now in
        Tells result (tell.unexpected_identifier_assign node.text node.span
        (rows.not_assigned_because (around ctx.now)) ∷ []) out.old out.new }
{
    let context = not_assigned_because(ctx);
    let name = kind.text();
    tell(
        unexpected_identifier_assign(alloc, name.as_str(), kind.span(), context),
        out,
    )
}

/// Whether nodes of the kind are parts of a pattern or a declarator.
fn is_pattern_part(kind: AstType) -> bool
    ensures { result ≡ rows.is_pattern_part kind }
{
    matches!(
        kind,
        AstType::VariableDeclarator
            | AstType::BindingProperty
            | AstType::ArrayPattern
            | AstType::AssignmentPattern
            | AstType::BindingRestElement
    )
}

/// Whether the node above the parent is of the kind.
fn is_second_under(kind: AstType, ctx: &CheckContext<'_, '_>) -> bool
    requires { IsContext ctx.now }
    ensures { result ≡ rows.is_second_under kind (around ctx.now).path }
{
    let mut left = ctx.above();
    let Some(_) = left.next() else {
        return false;
    };
    match left.next() {
        Some(second) => second.ty() == kind,
        None => false,
    }
}

/// Whether the name is that of a parameter, the rest one included, or of a declaration without pattern.
fn is_plain_binding(ctx: &CheckContext<'_, '_>) -> bool
    requires { IsContext ctx.now }
    ensures { result ≡ rows.is_plain_binding (around ctx.now) }
{
    let Some(parent) = ctx.parent() else {
        return true;
    };
    let is_rest = parent.ty() == AstType::BindingRestElement
        && is_second_under(AstType::FormalParameterRest, ctx);
    is_rest || !is_pattern_part(parent.ty())
}

/// Tells of `eval` and `arguments` as names that strict code would bind.
#[tactic(auto, using(check_context::proofs::Telling::telling))]
fn tell_eval_binding(
    alloc: Global,
    kind: AstKind<'_>,
    ctx: &CheckContext<'_, '_>,
    out: &mut Diagnostics,
) -> Result<(), AllocError>
    requires { IsContext ctx.now }
    ensures { Tells result (rows.eval_binding_rows (sight kind.entry.node.now ctx.now)) out.old
        out.new }
{
    if !is_eval_or_arguments(kind) || !ctx.is_strict() {
        return Ok(());
    }
    if ctx.in_ambient && is_plain_binding(ctx) {
        return Ok(());
    }
    tell_assignment(alloc, kind, ctx, out)
}

/// The innermost variable declaration around, before any function.
fn declaration_around<'a>(ctx: &CheckContext<'a, '_>) -> Option<AstKind<'a>>
    requires { IsContext ctx.now }
    ensures { option_map shown result
        ≡ find_before (is kinds.Function) (is kinds.VariableDeclaration) (around ctx.now).path }
{
    let mut left = ctx.above();
    while let Some(kind) = left.next() {
        if kind.ty() == AstType::Function {
            return None;
        }
        if kind.ty() == AstType::VariableDeclaration {
            return Some(kind);
        }
    }
    None
}

/// Tells of `let` as a name that a lexical declaration would bind (ECMAScript 14.3.1.1).
#[tactic(auto, using(check_context::proofs::Telling::made))]
fn tell_let(
    alloc: Global,
    kind: AstKind<'_>,
    ctx: &CheckContext<'_, '_>,
    out: &mut Diagnostics,
) -> Result<(), AllocError>
    requires { IsContext ctx.now }
    ensures { Tells result (rows.let_rows (sight kind.entry.node.now ctx.now)) out.old out.new }
{
    if !reads(kind, "let") || ctx.is_strict() {
        return Ok(());
    }
    let Some(declaration) = declaration_around(ctx) else {
        return Ok(());
    };
    if reads(declaration, "var") {
        return Ok(());
    }
    let keyword = declaration.text();
    tell(
        invalid_let_declaration(alloc, keyword.as_str(), kind.span()),
        out,
    )
}

/// Strict code doesn't bind `eval` and `arguments` (ECMAScript 13.1.1), and a lexical declaration doesn't bind `let`
/// (14.3.1.1), except in a definition file.
#[tactic(auto, using(check_context::proofs::Telling::telling))]
pub fn check_binding_identifier<'a>(
    alloc: Global,
    kind: AstKind<'a>,
    ctx: &CheckContext<'a, '_>,
    out: &mut Diagnostics,
) -> Result<(), AllocError>
    requires { IsContext ctx.now }
    ensures { Tells result (rows.check_binding_identifier (sight kind.entry.node.now ctx.now))
        out.old out.new }
{
    if ctx.source_type.is_typescript_definition() {
        return Ok(());
    }
    tell_eval_binding(alloc, kind, ctx, out)?;
    tell_let(alloc, kind, ctx, out)
}

/// Private names stand in class bodies alone (ECMAScript 16.1.1, AllPrivateIdentifiersValid).
#[tactic(auto, using(check_context::proofs::Telling::made))]
pub fn check_private_identifier_outside_class<'a>(
    alloc: Global,
    kind: AstKind<'a>,
    ctx: &CheckContext<'a, '_>,
    out: &mut Diagnostics,
) -> Result<(), AllocError>
    requires { IsContext ctx.now }
    ensures { Tells result (rows.check_private_identifier_outside_class
        (sight kind.entry.node.now ctx.now)) out.old out.new }
{
    if ctx.has_class() {
        return Ok(());
    }
    let name = kind.text();
    tell(private_not_in_class(alloc, name.as_str(), kind.span()), out)
}
