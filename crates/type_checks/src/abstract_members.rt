//! Early errors of abstract members.
ghost use Rattle.std.specs.Prelude.{◌≡◌, flat_map};
ghost use Rattle.check_model.specs.Classes.{members};
ghost use Rattle.check_model.specs.Members as rows;
ghost use Rattle.check_context.specs.Tells.{Tells};

use check_context::{Grandchildren, tell};
use semantic_diagnostics::Diagnostics;
use semantic_diagnostics::makers::abstract_elem_in_concrete_class;
use semantic_tree::{AstKind, AstType, Mark, Role};
use std::alloc::{AllocError, Global};

/// Whether a member is a property or an accessor, and no method.
fn is_property(member: AstKind<'_>) -> bool
    ensures { result ≡ rows.is_property member.entry.node.now }
{
    matches!(
        member.ty(),
        AstType::PropertyDefinition | AstType::AccessorProperty
    )
}

/// Tells of a member that is abstract (`TS(1253)` of a property, else `TS(1244)`).
#[tactic(auto, using(check_context::proofs::Telling::made))]
fn tell_abstract(
    alloc: Global,
    member: AstKind<'_>,
    out: &mut Diagnostics,
) -> Result<(), AllocError>
    ensures { Tells result (rows.abstract_rows member.entry.node.now) out.old out.new }
{
    if !member.has_mark(Mark::Abstract) {
        return Ok(());
    }
    let Some(key) = member.child(Role::Key) else {
        return Ok(());
    };
    tell(
        abstract_elem_in_concrete_class(alloc, is_property(member), key.span()),
        out,
    )
}

/// Tells of each abstract member of a class.
#[tactic(auto, using(check_context::proofs::Telling::loop_telling))]
pub(crate) fn tell_abstract_members(
    alloc: Global,
    class: AstKind<'_>,
    out: &mut Diagnostics,
) -> Result<(), AllocError>
    ensures { Tells result (flat_map rows.abstract_rows (members class.entry.node.now)) out.old
        out.new }
{
    for member in Grandchildren::new(class, Role::Body, Role::Body) {
        tell_abstract(alloc, member, out)?;
    }
    Ok(())
}
