//! Early errors of types in loops' heads.
ghost use Rattle.std.specs.Prelude.{◌≡◌, flat_map};
ghost use Rattle.semantic_kinds.specs.declared.role.Role.TheVariants as roles;
ghost use Rattle.semantic_tree.specs.Views.{all_in};
ghost use Rattle.check_model.specs.TypedLoops as rows;
ghost use Rattle.check_context.specs.Handed.{around, IsContext};
ghost use Rattle.check_context.specs.Tells.{Tells};

use check_context::{CheckContext, has_child, tell};
use semantic_diagnostics::Diagnostics;
use semantic_diagnostics::makers::type_annotation_in_for_left;
use semantic_tree::{AstKind, AstType, Role};
use std::alloc::{AllocError, Global};

/// Tells of the type of a declarator (`TS(2404)` under `for-in`, `TS(2483)` under `for-of`).
#[tactic(auto, using(check_context::proofs::Telling::made))]
fn tell_type(
    alloc: Global,
    for_in: bool,
    declarator: AstKind<'_>,
    out: &mut Diagnostics,
) -> Result<(), AllocError>
    ensures { Tells result (rows.typed_rows for_in declarator.entry.node.now) out.old out.new }
{
    if !has_child(declarator, Role::Annotation) {
        return Ok(());
    }
    let Some(id) = declarator.child(Role::Id) else {
        return Ok(());
    };
    tell(type_annotation_in_for_left(alloc, id.span(), for_in), out)
}

/// Tells of the types of all declarators.
#[tactic(auto, using(check_context::proofs::Telling::loop_telling))]
fn tell_types(
    alloc: Global,
    for_in: bool,
    left: AstKind<'_>,
    out: &mut Diagnostics,
) -> Result<(), AllocError>
    ensures { Tells result (flat_map (rows.typed_rows for_in)
        (all_in roles.Declarators left.entry.node.now)) out.old out.new }
{
    for declarator in left.children(Role::Declarators) {
        tell_type(alloc, for_in, declarator, out)?;
    }
    Ok(())
}

/// The variable of a loop over something has no type (`TS(2404)`, `TS(2483)`). The node is the left of the loop, and
/// the context that of the loop, which is `for-in` or else `for-of`.
#[tactic(auto, using(check_context::proofs::Telling::telling))]
pub fn check_for_statement_left<'a>(
    alloc: Global,
    kind: AstKind<'a>,
    for_in: bool,
    ctx: &CheckContext<'a, '_>,
    out: &mut Diagnostics,
) -> Result<(), AllocError>
    requires { IsContext ctx.now }
    ensures { Tells result (rows.check_typed_for_statement_left kind.entry.node.now for_in
        (around ctx.now)) out.old out.new }
{
    if kind.ty() == AstType::VariableDeclaration {
        tell_types(alloc, for_in, kind, out)
    } else {
        Ok(())
    }
}
