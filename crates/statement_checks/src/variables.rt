//! Early errors of loops' heads and of variable declarations.
ghost use Rattle.std.specs.Prelude.{◌≡◌, ◌&&◌, option_map, flat_map, codes};
ghost use Rattle.semantic_kinds.specs.declared.kind.AstType.TheVariants as kinds;
ghost use Rattle.semantic_kinds.specs.declared.role.Role.TheVariants as roles;
ghost use Rattle.semantic_tree.specs.ChildIter.{shown, left_of};
ghost use Rattle.semantic_tree.specs.Views.{has_text, is, whose};
ghost use Rattle.semantic_tree.specs.BoundNames.{bound_names};
ghost use Rattle.semantic_diagnostics.specs.Names as tell_of;
ghost use Rattle.semantic_diagnostics.specs.Statements as tell;
ghost use Rattle.check_model.specs.Search.{only, row_if};
ghost use Rattle.check_model.specs.Surroundings.{is_script, is_at_top, is_in_static_block, parent_passes};
ghost use Rattle.check_model.specs.Variables as rows;
ghost use Rattle.check_context.specs.Handed.{around, sight, IsContext};
ghost use Rattle.check_context.specs.Tells.{Tells};

use check_context::{CheckContext, has_child, one_before_last, tell};
use node_rules::bound_identifiers::identifiers_by_role;
use node_rules::questions::reads;
use semantic_diagnostics::Diagnostics;
use semantic_diagnostics::makers::{
    class_static_block_await_using, class_static_block_for_await, redeclaration,
    unexpected_initializer_in_for_loop_head, using_declaration_not_allowed_in_script,
};
use semantic_syntax::SymbolFlags;
use semantic_tree::{AstKind, AstType, ChildIter, Mark, Role};
use std::alloc::{AllocError, Global};

/// A static block doesn't await in a loop (ECMAScript 15.7.1, Contains `await`).
#[tactic(auto, using(check_context::proofs::Telling::made))]
pub fn check_for_of_statement<'a>(
    alloc: Global,
    kind: AstKind<'a>,
    ctx: &CheckContext<'a, '_>,
    out: &mut Diagnostics,
) -> Result<(), AllocError>
    requires { IsContext ctx.now }
    ensures { Tells result (rows.check_for_of_statement (sight kind.entry.node.now ctx.now)) out.old
        out.new }
{
    if kind.has_mark(Mark::Await) && ctx.is_in_static_block() {
        tell(class_static_block_for_await(alloc, kind.span()), out)
    } else {
        Ok(())
    }
}

/// The child that is left, if it is the last one.
fn only_child(children: ChildIter<'_>) -> Option<AstKind<'_>>
    ensures { option_map shown result ≡ only (left_of children.entry) }
{
    let mut left = children;
    let first = left.next()?;
    match left.next() {
        Some(_) => None,
        None => Some(first),
    }
}

/// Whether a declarator binds a plain name.
fn is_plain_name(declarator: AstKind<'_>) -> bool
    ensures { result ≡ whose roles.Id (is kinds.BindingIdentifier) declarator.entry.node.now }
{
    match declarator.child(Role::Id) {
        Some(id) => id.ty() == AstType::BindingIdentifier,
        None => false,
    }
}

/// Whether a declarator of a loop's head has an initializer, other than that of a plain name under `for-in` in sloppy
/// code (ECMAScript, Annex B.3.5).
fn is_bad_initializer(
    left: AstKind<'_>,
    for_in: bool,
    declarator: AstKind<'_>,
    ctx: &CheckContext<'_, '_>,
) -> bool
    requires { IsContext ctx.now }
    ensures { result ≡ rows.is_bad_initializer
        (around ctx.now) left.entry.node.now for_in declarator.entry.node.now }
{
    has_child(declarator, Role::Init)
        && ((ctx.is_strict() && reads(left, "var")) || !for_in || !is_plain_name(declarator))
}

/// What a message calls the loop.
fn loop_name(for_in: bool) -> &'static str
    ensures { result.now ≡ rows.loop_name for_in }
{
    if for_in { "for-in" } else { "for-of" }
}

/// Tells of the initializer of a declarator in the head of a loop, where it may not stand.
#[tactic(auto, using(check_context::proofs::Telling::made, crate::proofs::LoopNames::names))]
fn tell_declarator(
    alloc: Global,
    left: AstKind<'_>,
    for_in: bool,
    declarator: AstKind<'_>,
    ctx: &CheckContext<'_, '_>,
    out: &mut Diagnostics,
) -> Result<(), AllocError>
    requires { IsContext ctx.now }
    ensures { Tells result (row_if
        (rows.is_bad_initializer
        (around ctx.now) left.entry.node.now for_in declarator.entry.node.now)
        (tell.unexpected_initializer_in_for_loop_head
        (rows.loop_name for_in) left.entry.node.now.span)) out.old out.new }
{
    if !is_bad_initializer(left, for_in, declarator, ctx) {
        return Ok(());
    }
    let name = loop_name(for_in);
    tell(
        unexpected_initializer_in_for_loop_head(alloc, name, left.span()),
        out,
    )
}

/// The variable of a loop over something has no initializer (ECMAScript 14.7.5.1, Annex B.3.5, Initializers in ForIn
/// Statement Heads). The node is the left of the loop, and the context that of the loop, which is `for-in` or else
/// `for-of`.
#[tactic(auto, using(check_context::proofs::Telling::telling))]
pub fn check_for_statement_left<'a>(
    alloc: Global,
    kind: AstKind<'a>,
    for_in: bool,
    ctx: &CheckContext<'a, '_>,
    out: &mut Diagnostics,
) -> Result<(), AllocError>
    requires { IsContext ctx.now }
    ensures { Tells result (rows.check_for_statement_left kind.entry.node.now for_in
        (around ctx.now)) out.old out.new }
{
    if kind.ty() == AstType::VariableDeclaration {
        match only_child(kind.children(Role::Declarators)) {
            Some(declarator) => tell_declarator(alloc, kind, for_in, declarator, ctx, out),
            None => Ok(()),
        }
    } else {
        Ok(())
    }
}

/// Whether a declaration is `using` or `await using`.
fn is_using(kind: AstKind<'_>) -> bool
    ensures { result ≡ rows.is_using kind.entry.node.now }
{
    reads(kind, "using") || reads(kind, "await using")
}

/// Tells of `using` at the top of a script.
#[tactic(auto, using(check_context::proofs::Telling::made))]
fn tell_using(
    alloc: Global,
    kind: AstKind<'_>,
    ctx: &CheckContext<'_, '_>,
    out: &mut Diagnostics,
) -> Result<(), AllocError>
    requires { IsContext ctx.now }
    ensures { let s = sight kind.entry.node.now ctx.now in
        Tells result (row_if (rows.is_using s.node && (is_script s && is_at_top s))
        (tell.using_declaration_not_allowed_in_script s.node.span)) out.old out.new }
{
    if is_using(kind) && ctx.source_type.is_script() && ctx.is_at_top() {
        tell(
            using_declaration_not_allowed_in_script(alloc, kind.span()),
            out,
        )
    } else {
        Ok(())
    }
}

/// Tells of `await using` in a static block (ECMAScript 15.7.1, Contains `await`).
#[tactic(auto, using(check_context::proofs::Telling::made))]
fn tell_await_using(
    alloc: Global,
    kind: AstKind<'_>,
    ctx: &CheckContext<'_, '_>,
    out: &mut Diagnostics,
) -> Result<(), AllocError>
    requires { IsContext ctx.now }
    ensures { let s = sight kind.entry.node.now ctx.now in
        Tells result (row_if (has_text (codes "await using") s.node && is_in_static_block s)
        (tell_of.class_static_block_await_using s.node.span)) out.old out.new }
{
    if reads(kind, "await using") && ctx.is_in_static_block() {
        tell(class_static_block_await_using(alloc, kind.span()), out)
    } else {
        Ok(())
    }
}

/// `using` doesn't stand at the top of a script, nor `await using` in a static block (ECMAScript 14.3.1.1, 15.7.1).
#[tactic(auto, using(check_context::proofs::Telling::telling))]
pub fn check_variable_declaration<'a>(
    alloc: Global,
    kind: AstKind<'a>,
    ctx: &CheckContext<'a, '_>,
    out: &mut Diagnostics,
) -> Result<(), AllocError>
    requires { IsContext ctx.now }
    ensures { Tells result (rows.check_variable_declaration (sight kind.entry.node.now ctx.now))
        out.old out.new }
{
    tell_using(alloc, kind, ctx, out)?;
    tell_await_using(alloc, kind, ctx, out)
}

/// Whether a `var` may declare a function again: in functions, and at the top of what is no module.
fn lets_var_redeclare(ctx: &CheckContext<'_, '_>) -> bool
    requires { IsContext ctx.now }
    ensures { result ≡ rows.lets_var_redeclare (around ctx.now) }
{
    ctx.is_in_function() || (ctx.is_at_top() && !ctx.source_type.is_module())
}

/// Whether the node around is a `var`.
fn is_in_var(ctx: &CheckContext<'_, '_>) -> bool
    requires { IsContext ctx.now }
    ensures { result ≡ parent_passes (around ctx.now) (has_text (codes "var")) }
{
    match ctx.parent() {
        Some(parent) => reads(parent, "var"),
        None => false,
    }
}

/// Tells of a name of a declarator whose last declaration but one is a function.
#[tactic(auto, using(check_context::proofs::Telling::made))]
fn tell_name(
    alloc: Global,
    name: AstKind<'_>,
    kind: AstKind<'_>,
    ctx: &CheckContext<'_, '_>,
    out: &mut Diagnostics,
) -> Result<(), AllocError>
    requires { IsContext ctx.now }
    ensures { Tells result (rows.name_rows (sight kind.entry.node.now ctx.now) name.entry.node.now)
        out.old out.new }
{
    let Some(before) = one_before_last(ctx.entries_of(name)) else {
        return Ok(());
    };
    if !before.flags.intersects(SymbolFlags::Function) {
        return Ok(());
    }
    let text = name.text();
    tell(
        redeclaration(alloc, text.as_str(), before.span, kind.span()),
        out,
    )
}

/// Tells of each name of a declarator whose last declaration but one is a function.
#[tactic(auto, using(check_context::proofs::Telling::loop_telling))]
fn tell_names(
    alloc: Global,
    kind: AstKind<'_>,
    ctx: &CheckContext<'_, '_>,
    out: &mut Diagnostics,
) -> Result<(), AllocError>
    requires { IsContext ctx.now }
    ensures { let s = sight kind.entry.node.now ctx.now in
        Tells result (flat_map (rows.name_rows s) (bound_names s.node)) out.old out.new }
{
    let names = identifiers_by_role(alloc, kind)?;
    for name in names.iter() {
        tell_name(alloc, name, kind, ctx, out)?;
    }
    Ok(())
}

/// A `var` elsewhere than in functions and at the top of a script doesn't declare a function's name again, in
/// JavaScript (ECMAScript 14.2.1, 16.2.1.1, VarDeclaredNames).
#[tactic(auto, using(check_context::proofs::Telling::telling))]
pub fn check_variable_declarator_redeclaration<'a>(
    alloc: Global,
    kind: AstKind<'a>,
    ctx: &CheckContext<'a, '_>,
    out: &mut Diagnostics,
) -> Result<(), AllocError>
    requires { IsContext ctx.now }
    ensures { Tells result (rows.check_variable_declarator_redeclaration
        (sight kind.entry.node.now ctx.now)) out.old out.new }
{
    if ctx.source_type.is_typescript() || !is_in_var(ctx) || lets_var_redeclare(ctx) {
        return Ok(());
    }
    tell_names(alloc, kind, ctx, out)
}
