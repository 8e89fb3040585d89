//! Early errors of exported names.
ghost use Rattle.std.specs.Prelude.{flat_map};
ghost use Rattle.semantic_kinds.specs.declared.role.Role.TheVariants as roles;
ghost use Rattle.semantic_tree.specs.Views.{all_in, child_of};
ghost use Rattle.check_model.specs.Exports as rows;
ghost use Rattle.check_model.specs.Search.{rows_of_some};
ghost use Rattle.check_context.specs.Handed.{around, sight, IsContext};
ghost use Rattle.check_context.specs.Tells.{Tells};

use check_context::{CheckContext, tell};
use semantic_diagnostics::Diagnostics;
use semantic_diagnostics::makers::undefined_export;
use semantic_tree::{AstKind, AstType, Role};
use std::alloc::{AllocError, Global};

/// Tells of an exported name that is declared nowhere (ECMAScript 16.2.1.1, ExportedBindings).
#[tactic(auto, using(check_context::proofs::Telling::made))]
fn tell_local(
    alloc: Global,
    local: AstKind<'_>,
    ctx: &CheckContext<'_, '_>,
    out: &mut Diagnostics,
) -> Result<(), AllocError>
    ensures { Tells result (rows.local_rows (around ctx.now) local.entry.node.now) out.old out.new }
{
    if local.ty() == AstType::IdentifierReference && ctx.is_free(local) {
        let name = local.text();
        tell(undefined_export(alloc, name.as_str(), local.span()), out)
    } else {
        Ok(())
    }
}

/// Tells of the name that a specifier exports, if it is declared nowhere.
#[tactic(auto, using(check_context::proofs::Telling::telling))]
fn tell_specifier(
    alloc: Global,
    specifier: AstKind<'_>,
    ctx: &CheckContext<'_, '_>,
    out: &mut Diagnostics,
) -> Result<(), AllocError>
    ensures { Tells result (rows_of_some (rows.local_rows (around ctx.now))
        (child_of roles.Local specifier.entry.node.now)) out.old out.new }
{
    match specifier.child(Role::Local) {
        Some(local) => tell_local(alloc, local, ctx, out),
        None => Ok(()),
    }
}

/// Tells of each name that an export lists and that is declared nowhere.
#[tactic(auto, using(check_context::proofs::Telling::loop_telling))]
fn tell_specifiers(
    alloc: Global,
    statement: AstKind<'_>,
    ctx: &CheckContext<'_, '_>,
    out: &mut Diagnostics,
) -> Result<(), AllocError>
    ensures { Tells result (flat_map
        (λ specifier. rows_of_some (rows.local_rows (around ctx.now))
        (child_of roles.Local specifier)) (all_in roles.Specifiers statement.entry.node.now))
        out.old out.new }
{
    for specifier in statement.children(Role::Specifiers) {
        tell_specifier(alloc, specifier, ctx, out)?;
    }
    Ok(())
}

/// Tells of the names of a statement, if it is an export without a source.
#[tactic(auto, using(check_context::proofs::Telling::telling))]
fn tell_export(
    alloc: Global,
    statement: AstKind<'_>,
    ctx: &CheckContext<'_, '_>,
    out: &mut Diagnostics,
) -> Result<(), AllocError>
    ensures { Tells result (rows.export_rows (around ctx.now) statement.entry.node.now) out.old
        out.new }
{
    if statement.ty() == AstType::ExportNamedDeclaration {
        tell_specifiers(alloc, statement, ctx, out)
    } else {
        Ok(())
    }
}

/// Tells of the names that the statements of a program export and that are declared nowhere.
#[tactic(auto, using(check_context::proofs::Telling::loop_telling))]
fn tell_exports(
    alloc: Global,
    program: AstKind<'_>,
    ctx: &CheckContext<'_, '_>,
    out: &mut Diagnostics,
) -> Result<(), AllocError>
    ensures { Tells result (flat_map (rows.export_rows (around ctx.now))
        (all_in roles.Body program.entry.node.now)) out.old out.new }
{
    for statement in program.children(Role::Body) {
        tell_export(alloc, statement, ctx, out)?;
    }
    Ok(())
}

/// A module exports what it declares, in JavaScript (ECMAScript 16.2.1.1, ExportedBindings). The tables give each node
/// one reference at most, which is looked up.
#[tactic(auto, using(check_context::proofs::Telling::telling))]
pub fn check_unresolved_exports<'a>(
    alloc: Global,
    kind: AstKind<'a>,
    ctx: &CheckContext<'a, '_>,
    out: &mut Diagnostics,
) -> Result<(), AllocError>
    requires { IsContext ctx.now }
    ensures { Tells result (rows.check_unresolved_exports (sight kind.entry.node.now ctx.now))
        out.old out.new }
{
    if ctx.source_type.is_typescript() || !ctx.source_type.is_module() {
        return Ok(());
    }
    tell_exports(alloc, kind, ctx, out)
}
