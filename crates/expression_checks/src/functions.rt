//! Early errors of functions that are declared again.
ghost use Rattle.std.specs.Prelude.{◌≡◌, ◌&&◌, ◌||◌, ◌∷◌, [], find, not};
ghost use Rattle.std.specs.List.{position_or_len};
ghost use Rattle.semantic_kinds.specs.declared.mark.Mark.TheVariants as mark;
ghost use Rattle.semantic_syntax.specs.Sets.{meets, union};
ghost use Rattle.semantic_syntax.specs.declared.symbol_flags.TheConstants.SymbolFlags as symbol;
ghost use Rattle.semantic_tree.specs.Views.{has};
ghost use Rattle.semantic_diagnostics.specs.Names as tell;
ghost use Rattle.check_model.specs.Bodies as bodies;
ghost use Rattle.check_model.specs.Entries.{before_last};
ghost use Rattle.check_model.specs.Functions as rows;
ghost use Rattle.check_model.specs.Search.{rows_of_some};
ghost use Rattle.check_model.specs.Sight.{symbol_entries};
ghost use Rattle.check_context.specs.Handed.{around, sight, IsContext};
ghost use Rattle.check_context.specs.Tells.{Tells};

use check_context::{
    CheckContext, is_declared_function, is_function_decl_part_of_if_statement, one_before_last,
    tell,
};
use scoping::Redeclaration;
use semantic_diagnostics::Diagnostics;
use semantic_diagnostics::makers::redeclaration;
use semantic_syntax::{Span, SymbolFlags};
use semantic_tree::{AstKind, Mark, Role};
use std::alloc::{AllocError, Global};

/// Whether the scope lets functions be declared again, as `var` does: a function's, a static block's, and the root of
/// what is no module (ECMAScript 8.2.10, TopLevelVarDeclaredNames).
fn lets_functions_redeclare(ctx: &CheckContext<'_, '_>) -> bool
    requires { IsContext ctx.now }
    ensures { result ≡ rows.lets_functions_redeclare (around ctx.now) }
{
    ctx.is_in_function()
        || ctx.is_static_block()
        || (ctx.is_at_top() && !ctx.source_type.is_module())
}

/// Whether a declaration with the flags is that of a `var` or of a function.
fn is_var_or_function(flags: SymbolFlags) -> bool
    ensures { result ≡ meets flags.bits
        (union symbol.FunctionScopedVariable.bits symbol.Function.bits) }
{
    flags.intersects(SymbolFlags::FunctionScopedVariable.union(SymbolFlags::Function))
}

/// Whether a function may follow the declaration here, as far as functions are concerned: a clash with a lexical one
/// is told elsewhere.
fn may_precede(before: &Redeclaration, ctx: &CheckContext<'_, '_>) -> bool
    requires { IsContext ctx.now }
    ensures { result ≡ rows.may_precede (around ctx.now) before.now }
{
    before.flags.intersects(SymbolFlags::BlockScopedVariable)
        || (is_var_or_function(before.flags) && lets_functions_redeclare(ctx))
}

/// Whether the function is neither async nor a generator.
fn is_plain(kind: AstKind<'_>) -> bool
    ensures { result ≡ not (has mark.Async kind.entry.node.now
        || has mark.Generator kind.entry.node.now) }
{
    !(kind.has_mark(Mark::Async) || kind.has_mark(Mark::Generator))
}

/// Whether the function is a plain one in sloppy code, as the declaration before it is (ECMAScript, Annex B.3.2.4).
fn is_sloppy_repeat(kind: AstKind<'_>, before: &Redeclaration, ctx: &CheckContext<'_, '_>) -> bool
    requires { IsContext ctx.now }
    ensures { result ≡ rows.is_sloppy_repeat (sight kind.entry.node.now ctx.now) before.now }
{
    !ctx.is_strict() && is_plain(kind) && before.flags.intersects(SymbolFlags::Function)
}

/// The first declaration, before the last one, that is an async function or a generator, where `plain` declarations stand
/// before the first of all that is one.
#[tactic(auto, using(crate::proofs::EarlierFound::earlier_is))]
fn earlier_async_or_generator(entries: &[Redeclaration], plain: usize) -> Option<Redeclaration>
    requires { plain ≡ position_or_len rows.is_async_or_generator entries.now }
    ensures { result ≡ find rows.is_async_or_generator (before_last entries.now) }
{
    match entries.split_last() {
        Some((_, earlier)) => earlier.get(plain).copied(),
        None => None,
    }
}

/// Tells of a name that is declared at the span and again by the identifier.
#[tactic(auto, using(check_context::proofs::Telling::made))]
fn tell_again(
    alloc: Global,
    ident: AstKind<'_>,
    first: Span,
    out: &mut Diagnostics,
) -> Result<(), AllocError>
    ensures { let node = ident.entry.node.now in
        Tells result (tell.redeclaration node.text first node.span ∷ []) out.old out.new }
{
    let name = ident.text();
    tell(
        redeclaration(alloc, name.as_str(), first, ident.span()),
        out,
    )
}

/// Tells of a plain function in sloppy code that repeats one: it may repeat plain functions alone (ECMAScript, Annex
/// B.3.2.4, Changes to Block Static Semantics: Early Errors).
#[tactic(auto, using(check_context::proofs::Telling::telling))]
fn tell_sloppy_repeat(
    alloc: Global,
    ident: AstKind<'_>,
    ctx: &CheckContext<'_, '_>,
    out: &mut Diagnostics,
) -> Result<(), AllocError>
    ensures { let node = ident.entry.node.now in
        Tells result (rows_of_some (λ entry. tell.redeclaration node.text entry.span node.span ∷ [])
        (find rows.is_async_or_generator (before_last (symbol_entries (around ctx.now) node))))
        out.old
        out.new }
{
    match earlier_async_or_generator(ctx.entries_of(ident), ctx.plain_entries_of(ident)) {
        Some(entry) => tell_again(alloc, ident, entry.span, out),
        None => Ok(()),
    }
}

/// Tells of a function that may not follow the declaration before it.
#[tactic(auto, using(check_context::proofs::Telling::telling))]
fn tell_repeat<'a>(
    alloc: Global,
    kind: AstKind<'a>,
    ident: AstKind<'a>,
    before: &Redeclaration,
    ctx: &CheckContext<'a, '_>,
    out: &mut Diagnostics,
) -> Result<(), AllocError>
    requires { IsContext ctx.now }
    ensures { let s = sight kind.entry.node.now ctx.now in let ident = ident.entry.node.now in
        Tells result (rows.repeat_rows s ident before.now (before_last (symbol_entries s ident)))
        out.old out.new }
{
    if is_sloppy_repeat(kind, before, ctx) {
        tell_sloppy_repeat(alloc, ident, ctx, out)
    } else {
        tell_again(alloc, ident, before.span, out)
    }
}

/// Tells of a function whose name was declared before, where it may not follow.
#[tactic(auto, using(check_context::proofs::Telling::telling))]
fn tell_redeclared<'a>(
    alloc: Global,
    kind: AstKind<'a>,
    ident: AstKind<'a>,
    ctx: &CheckContext<'a, '_>,
    out: &mut Diagnostics,
) -> Result<(), AllocError>
    requires { IsContext ctx.now }
    ensures { let s = sight kind.entry.node.now ctx.now in let ident = ident.entry.node.now in
        Tells result (rows.redeclared_rows s ident (symbol_entries s ident)) out.old out.new }
{
    let Some(before) = one_before_last(ctx.entries_of(ident)) else {
        return Ok(());
    };
    if may_precede(&before, ctx) {
        return Ok(());
    }
    tell_repeat(alloc, kind, ident, &before, ctx, out)
}

/// Whether the node is a function that is declared, elsewhere than as a branch of an `if` in sloppy code.
fn is_declared_in_list(kind: AstKind<'_>, ctx: &CheckContext<'_, '_>) -> bool
    requires { IsContext ctx.now }
    ensures { let s = sight kind.entry.node.now ctx.now in
        result ≡ (bodies.is_declared_function s.node
        && not (bodies.is_function_decl_part_of_if_statement s)) }
{
    is_declared_function(kind) && !is_function_decl_part_of_if_statement(kind, ctx)
}

/// In JavaScript a function doesn't declare a name again (ECMAScript 14.2.1, 16.2.1.1), but in functions, in static
/// blocks and at the top of a script, where functions are like `var`, and in sloppy code after plain functions (Annex
/// B.3.2.4).
#[tactic(auto, using(check_context::proofs::Telling::telling))]
pub fn check_function_redeclaration<'a>(
    alloc: Global,
    kind: AstKind<'a>,
    ctx: &CheckContext<'a, '_>,
    out: &mut Diagnostics,
) -> Result<(), AllocError>
    requires { IsContext ctx.now }
    ensures { Tells result (rows.check_function_redeclaration (sight kind.entry.node.now ctx.now))
        out.old out.new }
{
    if ctx.source_type.is_typescript() || !is_declared_in_list(kind, ctx) {
        return Ok(());
    }
    match kind.child(Role::Id) {
        Some(ident) => tell_redeclared(alloc, kind, ident, ctx, out),
        None => Ok(()),
    }
}
