//! Early errors of external modules.
ghost use Rattle.std.specs.Prelude.{◌≡◌, not};
ghost use Rattle.semantic_kinds.specs.declared.role.Role.TheVariants as roles;
ghost use Rattle.semantic_tree.specs.Views.{child_of};
ghost use Rattle.check_model.specs.Assignments.{block_rows};
ghost use Rattle.check_model.specs.Namespaces as rows;
ghost use Rattle.check_model.specs.Search.{row_if, rows_of_some};
ghost use Rattle.check_model.specs.Surroundings.{is_script};
ghost use Rattle.check_context.specs.Handed.{around, sight, IsContext};
ghost use Rattle.check_context.specs.Tells.{Tells};
ghost use Rattle.type_checks.specs.Places.{places_left, is_in_module_of_program};

use crate::exports::tell_block;
use crate::namespaces::is_module_kind;
use crate::places::Places;
use check_context::{CheckContext, tell};
use semantic_diagnostics::Diagnostics;
use semantic_diagnostics::makers::{
    nested_ambient_module_declaration, not_allowed_ambient_module_declaration,
};
use semantic_tree::{AstKind, AstType, Role};
use std::alloc::{AllocError, Global};

/// Whether the next places are an external module and a program around it.
fn is_in_module_of_program(places: Places<'_, '_>) -> bool
    ensures { result ≡ is_in_module_of_program (places_left places.entry) }
{
    let mut left = places;
    let Some(module) = left.next() else {
        return false;
    };
    let Some(program) = left.next() else {
        return false;
    };
    module.ty() == AstType::TSExternalModuleDeclaration && program.ty() == AstType::Program
}

/// Whether the places are the top of a program, or that of an external module at the top of a script.
fn is_module_place(in_script: bool, places: Places<'_, '_>) -> bool
    ensures { result ≡ rows.is_module_place in_script (places_left places.entry) }
{
    let mut left = places;
    let Some(place) = left.next() else {
        return true;
    };
    place.ty() == AstType::Program
        || (in_script && place.ty() == AstType::TSModuleBlock && is_in_module_of_program(left))
}

/// Whether the nearest place is a namespace or module, or its block.
fn is_in_module_kind(ctx: &CheckContext<'_, '_>) -> bool
    requires { IsContext ctx.now }
    ensures { result ≡ rows.is_in_module_kind (rows.places (around ctx.now)) }
{
    let mut left = Places::around(ctx);
    let Some(place) = left.next() else {
        return false;
    };
    if is_module_kind(place.ty()) {
        return true;
    }
    let Some(around) = left.next() else {
        return false;
    };
    place.ty() == AstType::TSModuleBlock && is_module_kind(around.ty())
}

/// Tells of an external module elsewhere than it may stand.
#[tactic(auto, using(check_context::proofs::Telling::made))]
fn tell_misplaced(
    alloc: Global,
    kind: AstKind<'_>,
    ctx: &CheckContext<'_, '_>,
    out: &mut Diagnostics,
) -> Result<(), AllocError>
    requires { IsContext ctx.now }
    ensures { let s = sight kind.entry.node.now ctx.now in
        Tells result (row_if (not (rows.is_module_place (is_script s) (rows.places s)))
        (rows.misplaced_module s)) out.old out.new }
{
    if is_module_place(ctx.source_type.is_script(), Places::around(ctx)) {
        return Ok(());
    }
    if is_in_module_kind(ctx) {
        return tell(nested_ambient_module_declaration(alloc, kind.span()), out);
    }
    tell(
        not_allowed_ambient_module_declaration(alloc, kind.span()),
        out,
    )
}

/// Tells of export assignments in the body of an external module (`TS(2309)`).
fn tell_body(alloc: Global, kind: AstKind<'_>, out: &mut Diagnostics) -> Result<(), AllocError>
    ensures { Tells result (rows_of_some block_rows (child_of roles.Body kind.entry.node.now))
        out.old out.new }
{
    match kind.child(Role::Body) {
        Some(body) => tell_block(alloc, body, out),
        None => Ok(()),
    }
}

/// An external module stands at the top of a program (`TS(1234)`, `TS(2435)`), and an export assignment is the only
/// export of its body (`TS(2309)`).
#[tactic(auto, using(check_context::proofs::Telling::telling))]
pub fn check_ts_external_module_declaration<'a>(
    alloc: Global,
    kind: AstKind<'a>,
    ctx: &CheckContext<'a, '_>,
    out: &mut Diagnostics,
) -> Result<(), AllocError>
    requires { IsContext ctx.now }
    ensures { Tells result (rows.check_ts_external_module_declaration
        (sight kind.entry.node.now ctx.now)) out.old out.new }
{
    tell_misplaced(alloc, kind, ctx, out)?;
    tell_body(alloc, kind, out)
}
