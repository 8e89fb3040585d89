//! Early errors of methods without body.
ghost use Rattle.std.specs.Prelude.{◌≡◌, ◌∷◌, ◌&&◌, ◌||◌, [], not, codes, flat_map};
ghost use Rattle.semantic_kinds.specs.declared.mark.Mark.TheVariants as mark;
ghost use Rattle.semantic_kinds.specs.declared.role.Role.TheVariants as roles;
ghost use Rattle.semantic_tree.specs.Views.{child_of, has_text, has};
ghost use Rattle.semantic_diagnostics.specs.Types as tell;
ghost use Rattle.check_model.specs.Methods as rows;
ghost use Rattle.check_model.specs.Search.{rows_if, rows_of_some};
ghost use Rattle.check_context.specs.Handed.{sight, IsContext};
ghost use Rattle.check_context.specs.Tells.{Tells};

use check_context::{CheckContext, Grandchildren, tell};
use node_rules::questions::reads;
use semantic_diagnostics::Diagnostics;
use semantic_diagnostics::makers::{
    accessor_without_body, parameter_property_only_in_constructor_impl,
};
use semantic_tree::{AstKind, Mark, Role};
use std::alloc::{AllocError, Global};

/// Whether a parameter is a property of the class too.
fn is_parameter_property(item: AstKind<'_>) -> bool
    ensures { result ≡ rows.is_parameter_property item.entry.node.now }
{
    item.has_mark(Mark::Public)
        || item.has_mark(Mark::Private)
        || item.has_mark(Mark::Protected)
        || item.has_mark(Mark::Readonly)
        || item.has_mark(Mark::Override)
}

/// Tells of a parameter that is a property of the class too (`TS(2369)`).
#[tactic(auto, using(check_context::proofs::Telling::made))]
fn tell_parameter(alloc: Global, item: AstKind<'_>, out: &mut Diagnostics) -> Result<(), AllocError>
    ensures { Tells result (rows.parameter_rows item.entry.node.now) out.old out.new }
{
    if is_parameter_property(item) {
        tell(
            parameter_property_only_in_constructor_impl(alloc, item.span()),
            out,
        )
    } else {
        Ok(())
    }
}

/// Tells of each parameter of a function that is a property of the class too.
#[tactic(auto, using(check_context::proofs::Telling::loop_telling))]
fn tell_parameters(
    alloc: Global,
    value: AstKind<'_>,
    out: &mut Diagnostics,
) -> Result<(), AllocError>
    ensures { Tells result (flat_map rows.parameter_rows (rows.items_of value.entry.node.now))
        out.old out.new }
{
    for item in Grandchildren::new(value, Role::Params, Role::Items) {
        tell_parameter(alloc, item, out)?;
    }
    Ok(())
}

/// Tells of the parameter properties of a constructor.
#[tactic(auto, using(check_context::proofs::Telling::telling))]
fn tell_constructor(
    alloc: Global,
    kind: AstKind<'_>,
    value: AstKind<'_>,
    out: &mut Diagnostics,
) -> Result<(), AllocError>
    ensures { Tells result (rows_if (has_text (codes "constructor") kind.entry.node.now)
        (flat_map rows.parameter_rows (rows.items_of value.entry.node.now))) out.old out.new }
{
    if reads(kind, "constructor") {
        tell_parameters(alloc, value, out)
    } else {
        Ok(())
    }
}

/// Whether a method is a getter or a setter.
fn is_accessor(kind: AstKind<'_>) -> bool
    ensures { result ≡ rows.is_accessor kind.entry.node.now }
{
    reads(kind, "get") || reads(kind, "set")
}

/// Whether a method is a getter or a setter that is neither abstract nor ambient.
fn is_plain_accessor(kind: AstKind<'_>, ctx: &CheckContext<'_, '_>) -> bool
    ensures { let s = sight kind.entry.node.now ctx.now in
        result ≡ (rows.is_accessor s.node && not (has mark.Abstract s.node || s.is_ambient)) }
{
    is_accessor(kind) && !(kind.has_mark(Mark::Abstract) || ctx.in_ambient)
}

/// Tells of an accessor that is neither abstract nor ambient.
#[tactic(auto, using(check_context::proofs::Telling::made))]
fn tell_accessor(
    alloc: Global,
    kind: AstKind<'_>,
    ctx: &CheckContext<'_, '_>,
    out: &mut Diagnostics,
) -> Result<(), AllocError>
    ensures { let s = sight kind.entry.node.now ctx.now in
        Tells result
        (rows_if (rows.is_accessor s.node && not (has mark.Abstract s.node || s.is_ambient))
        (rows_of_some (λ key. tell.accessor_without_body key.span ∷ [])
        (child_of roles.Key s.node))) out.old out.new }
{
    if !is_plain_accessor(kind, ctx) {
        return Ok(());
    }
    let Some(key) = kind.child(Role::Key) else {
        return Ok(());
    };
    tell(accessor_without_body(alloc, key.span()), out)
}

/// A constructor without body has no parameter properties (`TS(2369)`), and an accessor that is neither abstract nor
/// ambient has a body (TypeScript 1005).
#[tactic(auto, using(check_context::proofs::Telling::telling))]
pub fn check_method_definition<'a>(
    alloc: Global,
    kind: AstKind<'a>,
    ctx: &CheckContext<'a, '_>,
    out: &mut Diagnostics,
) -> Result<(), AllocError>
    requires { IsContext ctx.now }
    ensures { Tells result (rows.check_method_definition (sight kind.entry.node.now ctx.now))
        out.old out.new }
{
    match kind.child(Role::Value) {
        Some(value) if reads(value, "ts-empty-body") => {
            tell_constructor(alloc, kind, value, out)?;
            tell_accessor(alloc, kind, ctx, out)
        }
        _ => Ok(()),
    }
}
