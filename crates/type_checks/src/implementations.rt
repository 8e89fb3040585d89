//! Early errors of methods without body.
ghost use Rattle.std.specs.Prelude.{◌≡◌, ◌∷◌, ◌&&◌, ◌||◌, [], None, not, codes, is_some, option_map};
ghost use Rattle.semantic_kinds.specs.declared.role.Role.TheVariants as roles;
ghost use Rattle.semantic_tree.specs.ChildIter.{shown};
ghost use Rattle.semantic_tree.specs.NameView.{name_shown};
ghost use Rattle.semantic_tree.specs.Views.{has_text, whose};
ghost use Rattle.check_model.specs.Classes.{members};
ghost use Rattle.check_model.specs.Members as rows;
ghost use Rattle.check_model.specs.Search.{each_between, passes};
ghost use Rattle.check_context.specs.Tells.{Tells};

use check_context::{Grandchildren, tell};
use node_rules::questions::reads;
use semantic_diagnostics::Diagnostics;
use semantic_diagnostics::makers::{
    constructor_implementation_missing, function_implementation_missing,
};
use semantic_tree::{AstKind, AstType, Mark, Role, StaticPropertyName};
use std::alloc::{AllocError, Global};

/// The static name of a member.
fn member_name<'a>(member: AstKind<'a>) -> Option<StaticPropertyName<'a>>
    ensures { option_map name_shown result ≡ rows.member_name member.entry.node.now }
{
    match member.child(Role::Key) {
        Some(key) => key.static_name(),
        None => None,
    }
}

/// Whether two members have the same static name, or none both.
#[tactic(auto, using(semantic_syntax::proofs::SameTexts::texts))]
fn is_same_name(one: AstKind<'_>, other: AstKind<'_>) -> bool
    ensures { result ≡ rows.same_name (rows.member_name one.entry.node.now)
        (rows.member_name other.entry.node.now) }
{
    match (member_name(one), member_name(other)) {
        (None, None) => true,
        (Some(one), Some(other)) => one.as_str() == other.as_str(),
        _ => false,
    }
}

/// Whether the function of a method only declares.
fn has_empty_body(member: AstKind<'_>) -> bool
    ensures { result ≡ whose roles.Value (has_text (codes "ts-empty-body")) member.entry.node.now }
{
    match member.child(Role::Value) {
        Some(value) => reads(value, "ts-empty-body"),
        None => false,
    }
}

/// Whether a member is a method that only declares.
fn is_bodiless(member: AstKind<'_>) -> bool
    ensures { result ≡ rows.is_bodiless member.entry.node.now }
{
    member.ty() == AstType::MethodDefinition
        && !(member.has_mark(Mark::Abstract) || member.has_mark(Mark::Optional))
        && has_empty_body(member)
}

/// Whether a method without body is an overload of the member behind it.
fn is_overload(member: AstKind<'_>, after: AstKind<'_>) -> bool
    ensures { result ≡ rows.is_overload member.entry.node.now after.entry.node.now }
{
    is_bodiless(member) && after.ty() == AstType::MethodDefinition && is_same_name(member, after)
}

/// Whether a member is an overload of the one behind it, if there is one.
fn has_overloaded(member: AstKind<'_>, after: Option<AstKind<'_>>) -> bool
    ensures { result ≡ passes (rows.is_overload member.entry.node.now)
        (option_map shown after.entry) }
{
    match after {
        Some(after) => is_overload(member, after),
        None => false,
    }
}

/// Whether the member in front of one, if there is one, is an overload of it.
fn has_overload(before: Option<AstKind<'_>>, member: AstKind<'_>) -> bool
    ensures { result ≡ passes (λ overload. rows.is_overload overload member.entry.node.now)
        (option_map shown before.entry) }
{
    match before {
        Some(before) => is_overload(before, member),
        None => false,
    }
}

/// Tells of a method or a constructor without body (`TS(2391)`, `TS(2390)`).
#[tactic(auto, using(check_context::proofs::Telling::made))]
fn tell_missing(
    alloc: Global,
    member: AstKind<'_>,
    key: AstKind<'_>,
    out: &mut Diagnostics,
) -> Result<(), AllocError>
    ensures { Tells result (rows.missing_implementation member.entry.node.now key.entry.node.now
        ∷ []) out.old out.new }
{
    if reads(member, "constructor") {
        tell(constructor_implementation_missing(alloc, key.span()), out)
    } else {
        tell(function_implementation_missing(alloc, key.span()), out)
    }
}

/// Whether a method lacks a body: it is no overload of the member behind it, and it has a static name or an overload.
fn lacks_body(before: Option<AstKind<'_>>, member: AstKind<'_>, after: Option<AstKind<'_>>) -> bool
    ensures { let node = member.entry.node.now in
        result ≡ (rows.is_bodiless node
        && (not (passes (rows.is_overload node) (option_map shown after.entry))
        && (is_some (rows.member_name node)
        || passes (λ overload. rows.is_overload overload node) (option_map shown before.entry)))) }
{
    is_bodiless(member)
        && !has_overloaded(member, after)
        && (member_name(member).is_some() || has_overload(before, member))
}

/// Tells of a member that lacks a body, by those around it.
#[tactic(auto, using(check_context::proofs::Telling::telling))]
fn tell_implementation(
    alloc: Global,
    before: Option<AstKind<'_>>,
    member: AstKind<'_>,
    after: Option<AstKind<'_>>,
    out: &mut Diagnostics,
) -> Result<(), AllocError>
    ensures { Tells result (rows.implementation_rows
        (option_map shown before.entry) member.entry.node.now (option_map shown after.entry))
        out.old out.new }
{
    if !lacks_body(before, member, after) {
        return Ok(());
    }
    match member.child(Role::Key) {
        Some(key) => tell_missing(alloc, member, key, out),
        None => Ok(()),
    }
}

/// Tells of each member of a class that lacks a body.
#[tactic(auto, using(check_context::proofs::Telling::loop_telling))]
pub(crate) fn tell_implementations(
    alloc: Global,
    class: AstKind<'_>,
    out: &mut Diagnostics,
) -> Result<(), AllocError>
    ensures { Tells result (each_between rows.implementation_rows None
        (members class.entry.node.now)) out.old out.new }
{
    let mut left = Grandchildren::new(class, Role::Body, Role::Body);
    let mut before = None;
    let mut next = left.next();
    while let Some(member) = next {
        next = left.next();
        tell_implementation(alloc, before, member, next, out)?;
        before = Some(member);
    }
    Ok(())
}
