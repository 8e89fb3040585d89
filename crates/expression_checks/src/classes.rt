//! Early errors of classes.
ghost use Rattle.std.specs.Prelude.{◌≡◌, ◌++◌, ◌&&◌, ◌||◌, not, codes};
ghost use Rattle.semantic_kinds.specs.declared.kind.AstType.TheVariants as kinds;
ghost use Rattle.semantic_kinds.specs.declared.role.Role.TheVariants as roles;
ghost use Rattle.semantic_tree.specs.Views.{has_child, has_text};
ghost use Rattle.check_model.specs.Classes as rows;
ghost use Rattle.check_model.specs.Search.{row_if, rows_of_some};
ghost use Rattle.check_model.specs.Entries.{one_before_last};
ghost use Rattle.check_model.specs.Sight.{symbol_entries};
ghost use Rattle.check_model.specs.Surroundings.{is_under};
ghost use Rattle.semantic_syntax.specs.Sets.{meets};
ghost use Rattle.semantic_syntax.specs.declared.symbol_flags.TheConstants.SymbolFlags as symbol;
ghost use Rattle.semantic_diagnostics.specs.Names as tell;
ghost use Rattle.check_context.specs.Handed.{around, sight, IsContext, IsHanded};
ghost use Rattle.check_context.specs.Tells.{Tells};

use crate::constructors::tell_constructors;
use crate::private_names::tell_private_uses;
use check_context::{CheckContext, first_bytes, has_child, one_before_last, tell};
use node_rules::questions::reads;
use semantic_diagnostics::Diagnostics;
use semantic_diagnostics::makers::{redeclaration, require_class_name};
use semantic_syntax::SymbolFlags;
use semantic_tree::{AstKind, AstType, Role};
use std::alloc::{AllocError, Global};

/// Whether a class is declared without a name, elsewhere than as the default export (ECMAScript 15.7, Class
/// Definitions).
fn lacks_name(kind: AstKind<'_>, ctx: &CheckContext<'_, '_>) -> bool
    requires { IsContext ctx.now }
    ensures { result ≡ (has_text (codes "declaration") kind.entry.node.now
        && not (has_child roles.Id kind.entry.node.now
        || is_under kinds.ExportDefaultDeclaration (around ctx.now))) }
{
    reads(kind, "declaration")
        && !has_child(kind, Role::Id)
        && !ctx.is_under(AstType::ExportDefaultDeclaration)
}

/// Tells of a class that is declared without a name.
#[tactic(auto, using(check_context::proofs::Telling::made))]
fn tell_class_name(
    alloc: Global,
    kind: AstKind<'_>,
    ctx: &CheckContext<'_, '_>,
    out: &mut Diagnostics,
) -> Result<(), AllocError>
    requires { IsHanded kind.node.now ctx.now }
    ensures { Tells result (rows.class_name_rows (sight kind.entry.node.now ctx.now)) out.old
        out.new }
{
    if lacks_name(kind, ctx) {
        tell(require_class_name(alloc, first_bytes(5, kind.span())), out)
    } else {
        Ok(())
    }
}

/// Each private name that a class uses is defined by it or by a class around it (ECMAScript 15.7.1,
/// AllPrivateIdentifiersValid), a class that is declared has a name, except as the default export (15.7), and it has
/// one constructor with a body (15.7.1, PrototypePropertyNameList).
#[tactic(auto, using(check_context::proofs::Telling::telling))]
pub fn check_class<'a>(
    alloc: Global,
    kind: AstKind<'a>,
    ctx: &CheckContext<'a, '_>,
    out: &mut Diagnostics,
) -> Result<(), AllocError>
    requires { IsHanded kind.node.now ctx.now }
    ensures { Tells result (rows.check_class (sight kind.entry.node.now ctx.now)) out.old out.new }
{
    tell_private_uses(alloc, ctx, out)?;
    tell_class_name(alloc, kind, ctx, out)?;
    tell_constructors(alloc, kind, out)
}

/// Tells of the name of a class whose last declaration but one is a function.
#[tactic(auto, using(check_context::proofs::Telling::made))]
fn tell_redeclaration(
    alloc: Global,
    ident: AstKind<'_>,
    ctx: &CheckContext<'_, '_>,
    out: &mut Diagnostics,
) -> Result<(), AllocError>
    requires { IsContext ctx.now }
    ensures { let name = ident.entry.node.now in
        Tells result (rows_of_some
        (λ before. row_if (meets before.flags.bits symbol.Function.bits)
        (tell.redeclaration name.text before.span name.span))
        (one_before_last (symbol_entries (around ctx.now) name))) out.old out.new }
{
    let Some(before) = one_before_last(ctx.entries_of(ident)) else {
        return Ok(());
    };
    if !before.flags.intersects(SymbolFlags::Function) {
        return Ok(());
    }
    let text = ident.text();
    tell(
        redeclaration(alloc, text.as_str(), before.span, ident.span()),
        out,
    )
}

/// A class doesn't declare a function's name again, in JavaScript (ECMAScript 14.2.1, 16.1.1,
/// LexicallyDeclaredNames).
#[tactic(auto, using(check_context::proofs::Telling::telling))]
pub fn check_class_redeclaration<'a>(
    alloc: Global,
    kind: AstKind<'a>,
    ctx: &CheckContext<'a, '_>,
    out: &mut Diagnostics,
) -> Result<(), AllocError>
    requires { IsContext ctx.now }
    ensures { Tells result (rows.check_class_redeclaration (sight kind.entry.node.now ctx.now))
        out.old out.new }
{
    if ctx.source_type.is_typescript() {
        return Ok(());
    }
    match kind.child(Role::Id) {
        Some(ident) => tell_redeclaration(alloc, ident, ctx, out),
        None => Ok(()),
    }
}
