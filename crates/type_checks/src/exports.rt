//! Early errors of export assignments.
ghost use Rattle.std.specs.Prelude.{◌≡◌, flat_map};
ghost use Rattle.std.specs.List.{list_any};
ghost use Rattle.semantic_kinds.specs.declared.role.Role.TheVariants as roles;
ghost use Rattle.semantic_tree.specs.Views.{all_in};
ghost use Rattle.check_model.specs.Assignments as rows;
ghost use Rattle.check_context.specs.Tells.{Tells};

use check_context::{has_child, tell};
use semantic_diagnostics::Diagnostics;
use semantic_diagnostics::makers::ts_export_assignment_cannot_be_used_with_other_exports;
use semantic_tree::{AstKind, AstType, Role};
use std::alloc::{AllocError, Global};

/// Whether a statement exports something otherwise than by assignment.
fn exports(statement: AstKind<'_>) -> bool
    ensures { result ≡ rows.exports_otherwise statement.entry.node.now }
{
    match statement.ty() {
        AstType::ExportNamedDeclaration | AstType::ExportFromDeclaration => {
            has_child(statement, Role::Specifiers)
        }
        AstType::ExportDefaultDeclaration
        | AstType::ExportAllDeclaration
        | AstType::ExportDeclaration => true,
        _ => false,
    }
}

/// Whether a statement of a block exports something otherwise than by assignment.
fn has_exports(block: AstKind<'_>) -> bool
    ensures { result ≡ list_any rows.exports_otherwise (all_in roles.Body block.entry.node.now) }
{
    for statement in block.children(Role::Body) {
        if exports(statement) {
            return true;
        }
    }
    false
}

/// Tells of a statement that is an export assignment.
#[tactic(auto, using(check_context::proofs::Telling::made))]
fn tell_assignment(
    alloc: Global,
    statement: AstKind<'_>,
    out: &mut Diagnostics,
) -> Result<(), AllocError>
    ensures { Tells result (rows.assignment_row statement.entry.node.now) out.old out.new }
{
    if statement.ty() == AstType::TSExportAssignment {
        tell(
            ts_export_assignment_cannot_be_used_with_other_exports(alloc, statement.span()),
            out,
        )
    } else {
        Ok(())
    }
}

/// Tells of each export assignment of a block.
#[tactic(auto, using(check_context::proofs::Telling::loop_telling))]
fn tell_assignments(
    alloc: Global,
    block: AstKind<'_>,
    out: &mut Diagnostics,
) -> Result<(), AllocError>
    ensures { Tells result (flat_map rows.assignment_row (all_in roles.Body block.entry.node.now))
        out.old out.new }
{
    for statement in block.children(Role::Body) {
        tell_assignment(alloc, statement, out)?;
    }
    Ok(())
}

/// Tells of each export assignment of a block that has other exports too (`TS(2309)`).
#[tactic(auto, using(check_context::proofs::Telling::telling))]
pub(crate) fn tell_block(
    alloc: Global,
    block: AstKind<'_>,
    out: &mut Diagnostics,
) -> Result<(), AllocError>
    ensures { Tells result (rows.block_rows block.entry.node.now) out.old out.new }
{
    if has_exports(block) {
        tell_assignments(alloc, block, out)
    } else {
        Ok(())
    }
}
