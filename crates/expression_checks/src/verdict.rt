//! What a function decides about the `super` in it (ECMAScript 15.7.1, 13.2.5.1, HasDirectSuper; 15.2.1).
ghost use Rattle.std.specs.Prelude.{◌≡◌, ◌<◌, ◌==◌, ◌||◌, if◌then◌else◌, Some, None, codes, length, not, option_map, find};
ghost use Rattle.semantic_syntax.specs.Sets.{meets};
ghost use Rattle.semantic_syntax.specs.declared.scope_flags.TheConstants.ScopeFlags as scope;
ghost use Rattle.semantic_tree.specs.ChildIter.{shown};
ghost use Rattle.semantic_tree.specs.Views.{has_text};
ghost use Rattle.semantic_tree.specs.declared.node.Node.{Node};
ghost use Rattle.check_model.specs.Context.{seen_row};
ghost use Rattle.check_model.specs.Super as rows;
ghost use Rattle.check_model.specs.Surroundings.{links};
ghost use Rattle.check_context.specs.Handed.{around, sight, IsContext};
ghost use Rattle.check_context.specs.Shown.{link_shown};
ghost use Rattle.expression_checks.specs.Verdicts.{verdict_shown};

use check_context::{CheckContext, Links, is_child_in};
use node_rules::questions::reads;
use semantic_syntax::{NodeId, ScopeFlags, ScopeId};
use semantic_tree::{AstKind, AstType, Mark, Role};

/// What a scope decides about the `super` in it.
#[derive(Clone, Copy, PartialEq, Eq, Debug)]
pub(crate) enum Verdict {
    Allowed,
    /// Allowed as an object, and not as what is called.
    AllowedUnlessCall,
    /// Allowed as what is called in a class with heritage.
    AllowedInDerived,
    Refused,
}

/// Whether the node is a call or a `new`.
fn is_call_node(kind: AstKind<'_>) -> bool
    ensures { result ≡ rows.is_call_node kind.entry.node.now }
{
    matches!(kind.ty(), AstType::CallExpression | AstType::NewExpression)
}

/// The call or the `new` whose `super` it is.
pub(crate) fn call_around<'a>(ctx: &CheckContext<'a, '_>) -> Option<AstKind<'a>>
    requires { IsContext ctx.now }
    ensures { option_map shown result ≡ rows.call_around (around ctx.now) }
{
    match ctx.parent() {
        Some(parent) if is_call_node(parent) => Some(parent),
        _ => None,
    }
}

/// Whether the `super` is called.
pub(crate) fn is_call(ctx: &CheckContext<'_, '_>) -> bool
    requires { IsContext ctx.now }
    ensures { result ≡ rows.is_call (around ctx.now) }
{
    call_around(ctx).is_some()
}

/// Whether the property is a method, a getter or a setter of an object.
fn is_object_method(property: AstKind<'_>) -> bool
    ensures { result ≡ rows.is_object_method property.entry.node.now }
{
    property.ty() == AstType::ObjectProperty
        && (property.has_mark(Mark::Method) || reads(property, "get") || reads(property, "set"))
}

/// What the function of a method of a class decides: constructors alone allow the call (ECMAScript 15.7.1,
/// HasDirectSuper).
fn method_verdict(method: AstKind<'_>, ctx: &CheckContext<'_, '_>) -> Verdict
    requires { IsContext ctx.now }
    ensures { verdict_shown result
        ≡ (if not (rows.is_call (around ctx.now)) then rows.allowed
        else (if has_text (codes "constructor") method.entry.node.now then rows.allowed_in_derived
        else rows.refused)) }
{
    if !is_call(ctx) {
        Verdict::Allowed
    } else if reads(method, "constructor") {
        Verdict::AllowedInDerived
    } else {
        Verdict::Refused
    }
}

/// What a function decides that is reached from the node around it: methods of objects and of classes alone allow
/// `super` (ECMAScript 13.2.5.1, 15.7.1, 15.2.1).
fn function_verdict(
    function: AstKind<'_>,
    owner: AstKind<'_>,
    ctx: &CheckContext<'_, '_>,
) -> Verdict
    requires { IsContext ctx.now }
    ensures { let link : Node × Node = (function.entry.node.now, owner.entry.node.now) in
        verdict_shown result ≡ rows.function_verdict (around ctx.now) link }
{
    if !is_child_in(Role::Value, owner, function) {
        Verdict::Refused
    } else if is_object_method(owner) {
        Verdict::AllowedUnlessCall
    } else if owner.ty() == AstType::MethodDefinition {
        method_verdict(owner, ctx)
    } else {
        Verdict::Refused
    }
}

/// The node with the id, among those of the way outward, with its parent.
fn link_of<'a>(
    id: NodeId,
    kind: AstKind<'a>,
    ctx: &CheckContext<'a, '_>,
) -> Option<(AstKind<'a>, AstKind<'a>)>
    requires { IsContext ctx.now }
    ensures { option_map link_shown result
        ≡ find (λ link. link.0.node_id == id) (links (sight kind.entry.node.now ctx.now)) }
{
    let mut left = Links::new(kind, ctx.above());
    while let Some((child, parent)) = left.next() {
        if child.node_id() == id {
            return Some((child, parent));
        }
    }
    None
}

/// The node that opens a scope, if it is on the path and not the root, with its parent.
fn opener_of<'a>(
    scope: ScopeId,
    kind: AstKind<'a>,
    ctx: &CheckContext<'a, '_>,
) -> Option<(AstKind<'a>, AstKind<'a>)>
    requires context { IsContext ctx.now }
    requires scope { scope < length ctx.now.scoping.now.scopes }
    ensures { option_map link_shown result
        ≡ find (λ link. link.0.node_id == (seen_row ctx.now.scoping.now scope).opener)
        (links (sight kind.entry.node.now ctx.now)) }
{
    link_of(ctx.scoping.get_node_id(scope), kind, ctx)
}

/// What the function of a scope decides.
fn scope_function_verdict<'a>(
    scope: ScopeId,
    kind: AstKind<'a>,
    ctx: &CheckContext<'a, '_>,
) -> Verdict
    requires context { IsContext ctx.now }
    requires scope { scope < length ctx.now.scoping.now.scopes }
    ensures { verdict_shown result
        ≡ rows.scope_function_verdict (sight kind.entry.node.now ctx.now)
        (seen_row ctx.now.scoping.now scope) }
{
    match opener_of(scope, kind, ctx) {
        Some((function, owner)) => function_verdict(function, owner, ctx),
        None => Verdict::Refused,
    }
}

/// Whether the search for what decides goes on past a scope with the flags: one of an arrow, or of no function.
fn is_passed(flags: ScopeFlags) -> bool
    ensures { result ≡ (not (meets flags.bits scope.Function.bits)
        || meets flags.bits scope.Arrow.bits) }
{
    !flags.is_function() || flags.is_arrow()
}

/// What a scope decides that is no class's, if anything: static blocks allow `super`, and functions other than arrows
/// decide by where they stand.
pub(crate) fn scope_verdict<'a>(
    scope: ScopeId,
    kind: AstKind<'a>,
    ctx: &CheckContext<'a, '_>,
) -> Option<Verdict>
    requires context { IsContext ctx.now }
    requires scope { scope < length ctx.now.scoping.now.scopes }
    ensures { let seen = seen_row ctx.now.scoping.now scope in
        option_map verdict_shown result
        ≡ (if seen.is_static_block then Some rows.allowed_unless_call
        else (if not seen.is_function
        || seen.is_arrow then None else Some
        (rows.scope_function_verdict (sight kind.entry.node.now ctx.now) seen))) }
{
    let flags = ctx.scoping.scope_flags(scope);
    if flags.is_class_static_block() {
        return Some(Verdict::AllowedUnlessCall);
    }
    if is_passed(flags) {
        return None;
    }
    Some(scope_function_verdict(scope, kind, ctx))
}
