//! The checks of a node, by its kind.
ghost use Rattle.semantic_kinds.specs.declared.kind.AstType.TheVariants as kinds;
ghost use Rattle.check_model.specs.Rows.{rows_by, rows_of};
ghost use Rattle.check_context.specs.Handed.{sight, IsContext, IsHanded};
ghost use Rattle.check_context.specs.Tells.{Tells};
ghost use Rattle.checker.specs.Checkable.{IsCheckable};

use crate::parts::{check_body, check_labelled_body, check_left, check_own_name};
use crate::program::check_program;
use crate::{javascript, typescript};
use check_context::CheckContext;
use semantic_diagnostics::Diagnostics;
use semantic_tree::{AstKind, AstType, Role};
use std::alloc::{AllocError, Global};

/// What the rules tell of a binding identifier (ECMAScript 13.1.1).
fn check_binding_name(
    alloc: Global,
    kind: AstKind<'_>,
    ctx: &CheckContext<'_, '_>,
    out: &mut Diagnostics,
) -> Result<(), AllocError>
    requires { IsContext ctx.now }
    ensures { Tells result (rows_by kinds.BindingIdentifier (sight kind.entry.node.now ctx.now))
        out.old out.new }
{
    check_own_name(alloc, kind, ctx, out)?;
    javascript::check_binding_identifier(alloc, kind, ctx, out)
}

/// What the rules tell of an identifier reference (ECMAScript 13.1.1, 13.1.3).
fn check_reference_name(
    alloc: Global,
    kind: AstKind<'_>,
    ctx: &CheckContext<'_, '_>,
    out: &mut Diagnostics,
) -> Result<(), AllocError>
    requires { IsContext ctx.now }
    ensures { Tells result (rows_by kinds.IdentifierReference (sight kind.entry.node.now ctx.now))
        out.old out.new }
{
    check_own_name(alloc, kind, ctx, out)?;
    javascript::check_identifier_reference(alloc, kind, ctx, out)
}

/// What the rules tell of a `with`, its body first (ECMAScript 14.11.1).
fn check_with(
    alloc: Global,
    kind: AstKind<'_>,
    ctx: &CheckContext<'_, '_>,
    out: &mut Diagnostics,
) -> Result<(), AllocError>
    requires { IsHanded kind.node.now ctx.now }
    ensures { Tells result (rows_by kinds.WithStatement (sight kind.entry.node.now ctx.now)) out.old
        out.new }
{
    check_body(alloc, kind, Role::Body, false, ctx, out)?;
    javascript::check_with_statement(alloc, kind, ctx, out)
}

/// What the rules tell of an `if`, whose branches may be functions in sloppy code (ECMAScript, Annex B.3.3).
fn check_if(
    alloc: Global,
    kind: AstKind<'_>,
    ctx: &CheckContext<'_, '_>,
    out: &mut Diagnostics,
) -> Result<(), AllocError>
    requires { IsContext ctx.now }
    ensures { Tells result (rows_by kinds.IfStatement (sight kind.entry.node.now ctx.now)) out.old
        out.new }
{
    check_body(alloc, kind, Role::Consequent, true, ctx, out)?;
    check_body(alloc, kind, Role::Alternate, true, ctx, out)
}

/// What the rules tell of a labelled statement (ECMAScript 14.13.1).
fn check_label(
    alloc: Global,
    kind: AstKind<'_>,
    ctx: &CheckContext<'_, '_>,
    out: &mut Diagnostics,
) -> Result<(), AllocError>
    requires { IsContext ctx.now }
    ensures { Tells result (rows_by kinds.LabeledStatement (sight kind.entry.node.now ctx.now))
        out.old out.new }
{
    javascript::check_labeled_statement(alloc, kind, ctx, out)?;
    check_labelled_body(alloc, kind, ctx, out)
}

/// What the rules tell of a `for-in` (ECMAScript 14.7.5.1, Annex B.3.5).
fn check_for_in(
    alloc: Global,
    kind: AstKind<'_>,
    ctx: &CheckContext<'_, '_>,
    out: &mut Diagnostics,
) -> Result<(), AllocError>
    requires { IsContext ctx.now }
    ensures { Tells result (rows_by kinds.ForInStatement (sight kind.entry.node.now ctx.now))
        out.old out.new }
{
    check_body(alloc, kind, Role::Body, false, ctx, out)?;
    check_left(alloc, kind, true, ctx, out)
}

/// What the rules tell of a `for-of` (ECMAScript 14.7.5, 14.7.5.1), and of its `await` (15.7.1).
fn check_for_of(
    alloc: Global,
    kind: AstKind<'_>,
    ctx: &CheckContext<'_, '_>,
    out: &mut Diagnostics,
) -> Result<(), AllocError>
    requires { IsContext ctx.now }
    ensures { Tells result (rows_by kinds.ForOfStatement (sight kind.entry.node.now ctx.now))
        out.old out.new }
{
    check_body(alloc, kind, Role::Body, false, ctx, out)?;
    javascript::check_for_of_statement(alloc, kind, ctx, out)?;
    check_left(alloc, kind, false, ctx, out)
}

/// What the rules tell of a class (ECMAScript 15.7.1), those of TypeScript last.
fn check_whole_class(
    alloc: Global,
    kind: AstKind<'_>,
    ctx: &CheckContext<'_, '_>,
    out: &mut Diagnostics,
) -> Result<(), AllocError>
    requires { IsHanded kind.node.now ctx.now }
    ensures { Tells result (rows_by kinds.Class (sight kind.entry.node.now ctx.now)) out.old
        out.new }
{
    javascript::check_class(alloc, kind, ctx, out)?;
    javascript::check_class_redeclaration(alloc, kind, ctx, out)?;
    typescript::check_class(alloc, kind, ctx, out)
}

/// Adds a diagnostic for each rule of early errors that the node violates, in order, at the end of the list, as the
/// context shows the path to the node, the scopes, the symbols, the references and the classes. Of one kind of node
/// JavaScript's rules come before TypeScript's, and a node of a kind without rules costs one look. What the tables don't
/// have violates no rule. The node, the type that it annotates and the elements of classes stand in the source, on
/// characters: `is_checkable` tells whether all that is asked holds. For want of memory the first of the diagnostics are
/// added.
pub fn check<'a>(
    alloc: Global,
    kind: AstKind<'a>,
    ctx: &CheckContext<'a, '_>,
    out: &mut Diagnostics,
) -> Result<(), AllocError>
    requires { IsCheckable kind.node.now ctx.now }
    ensures { Tells result (rows_of (sight kind.entry.node.now ctx.now)) out.old out.new }
{
    match kind.ty() {
        AstType::Program => check_program(alloc, kind, ctx, out),
        AstType::BindingIdentifier => check_binding_name(alloc, kind, ctx, out),
        AstType::IdentifierReference => check_reference_name(alloc, kind, ctx, out),
        AstType::LabelIdentifier => check_own_name(alloc, kind, ctx, out),
        AstType::PrivateIdentifier => javascript::check_private_identifier_outside_class(
            alloc, kind, ctx, out,
        ),
        AstType::NumericLiteral => javascript::check_number_literal(alloc, kind, ctx, out),
        AstType::StringLiteral => javascript::check_string_literal(alloc, kind, ctx, out),
        AstType::Directive => javascript::check_directive(alloc, kind, ctx, out),
        AstType::WithStatement => check_with(alloc, kind, ctx, out),
        AstType::IfStatement => check_if(alloc, kind, ctx, out),
        AstType::BreakStatement => javascript::check_break_statement(alloc, kind, ctx, out),
        AstType::ContinueStatement => javascript::check_continue_statement(alloc, kind, ctx, out),
        AstType::LabeledStatement => check_label(alloc, kind, ctx, out),
        AstType::DoWhileStatement | AstType::WhileStatement | AstType::ForStatement => check_body(
            alloc,
            kind,
            Role::Body,
            false,
            ctx,
            out,
        ),
        AstType::ForInStatement => check_for_in(alloc, kind, ctx, out),
        AstType::ForOfStatement => check_for_of(alloc, kind, ctx, out),
        AstType::VariableDeclaration => javascript::check_variable_declaration(
            alloc, kind, ctx, out,
        ),
        AstType::VariableDeclarator => javascript::check_variable_declarator_redeclaration(
            alloc, kind, ctx, out,
        ),
        AstType::Function => javascript::check_function_redeclaration(alloc, kind, ctx, out),
        AstType::Class => check_whole_class(alloc, kind, ctx, out),
        AstType::MethodDefinition => typescript::check_method_definition(alloc, kind, ctx, out),
        AstType::FormalParameters => typescript::check_formal_parameters(alloc, kind, ctx, out),
        AstType::Super => javascript::check_super(alloc, kind, ctx, out),
        AstType::ObjectExpression => javascript::check_object_expression(alloc, kind, ctx, out),
        AstType::UnaryExpression => javascript::check_unary_expression(alloc, kind, ctx, out),
        AstType::AwaitExpression => javascript::check_await_expression(alloc, kind, ctx, out),
        AstType::YieldExpression => javascript::check_yield_expression(alloc, kind, ctx, out),
        AstType::TSTypeAnnotation => typescript::check_ts_type_annotation(alloc, kind, ctx, out),
        AstType::TSTypePredicate => typescript::check_ts_type_predicate(alloc, kind, ctx, out),
        AstType::TSInferType => typescript::check_ts_infer_type(alloc, kind, ctx, out),
        AstType::TSNamespaceDeclaration => typescript::check_ts_namespace_declaration(
            alloc, kind, ctx, out,
        ),
        AstType::TSGlobalDeclaration => typescript::check_ts_global_declaration(
            alloc, kind, ctx, out,
        ),
        AstType::TSExternalModuleDeclaration => typescript::check_ts_external_module_declaration(
            alloc, kind, ctx, out,
        ),
        AstType::TSEnumDeclaration => typescript::check_ts_enum_declaration(alloc, kind, ctx, out),
        _ => Ok(()),
    }
}
