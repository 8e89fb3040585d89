//! Early errors of constructors.
ghost use Rattle.std.specs.Prelude.{◌≡◌, ◌∷◌, [], filter, MatchOption};
ghost use Rattle.semantic_kinds.specs.declared.role.Role.TheVariants as roles;
ghost use Rattle.semantic_tree.specs.Views.{has_child, whose};
ghost use Rattle.check_model.specs.Classes as rows;
ghost use Rattle.check_context.specs.Grandchildren.{grandchildren_left};
ghost use Rattle.check_context.specs.Tells.{Tells};

use check_context::{Grandchildren, has_child, tell};
use node_rules::questions::reads;
use semantic_diagnostics::Diagnostics;
use semantic_diagnostics::makers::duplicate_constructor;
use semantic_syntax::Span;
use semantic_tree::{AstKind, AstType, Role};
use std::alloc::{AllocError, Global};

/// Whether the value of a member is a function with a body.
fn has_body(member: AstKind<'_>) -> bool
    ensures { result ≡ whose roles.Value (has_child roles.Body) member.entry.node.now }
{
    match member.child(Role::Value) {
        Some(value) => has_child(value, Role::Body),
        None => false,
    }
}

/// Whether a member is a constructor with a body.
fn is_constructor_with_body(member: AstKind<'_>) -> bool
    ensures { result ≡ rows.is_constructor_with_body member.entry.node.now }
{
    member.ty() == AstType::MethodDefinition && reads(member, "constructor") && has_body(member)
}

/// The next constructor with a body, behind which the members after it are left.
fn next_constructor<'a>(members: &mut Grandchildren<'a>) -> Option<AstKind<'a>>
    ensures { MatchOption result
        (filter rows.is_constructor_with_body (grandchildren_left members.old) ≡ [])
        (λ found. filter rows.is_constructor_with_body (grandchildren_left members.old)
        ≡ found.node.now ∷ filter rows.is_constructor_with_body (grandchildren_left members.new)) }
{
    while let Some(member) = members.next() {
        if is_constructor_with_body(member) {
            return Some(member);
        }
    }
    None
}

/// Where a member is told of: at its key, or at all of it where the key has no static name.
fn member_span(member: AstKind<'_>) -> Span
    ensures { result ≡ rows.member_span member.entry.node.now }
{
    match member.child(Role::Key) {
        Some(key) if key.static_name().is_some() => key.span(),
        _ => member.span(),
    }
}

/// Tells of the second constructor with a body (ECMAScript 15.7.1, PrototypePropertyNameList).
#[tactic(auto, using(check_context::proofs::Telling::made))]
pub(crate) fn tell_constructors(
    alloc: Global,
    class: AstKind<'_>,
    out: &mut Diagnostics,
) -> Result<(), AllocError>
    ensures { Tells result (rows.second_rows
        (filter rows.is_constructor_with_body (rows.members class.entry.node.now))) out.old
        out.new }
{
    let mut members = Grandchildren::new(class, Role::Body, Role::Body);
    let Some(one) = next_constructor(&mut members) else {
        return Ok(());
    };
    let Some(two) = next_constructor(&mut members) else {
        return Ok(());
    };
    tell(
        duplicate_constructor(alloc, member_span(one), member_span(two)),
        out,
    )
}
