//! Early errors of elements that clash.
ghost use Rattle.std.specs.Prelude.{true, ◌≡◌, ◌∷◌, [], ◌&&◌, not, map, flat_map, IfSome};
ghost use Rattle.std.specs.List.{AllByRecursion};
ghost use Rattle.class_table.specs.Seen.{element_seen};
ghost use Rattle.check_model.specs.Elements as rows;
ghost use Rattle.check_model.specs.Search.{row_if, rows_of_some};
ghost use Rattle.check_model.specs.Surroundings.{is_typescript};
ghost use Rattle.semantic_tree.specs.Sound.{is_sound};
ghost use Rattle.check_context.specs.Handed.{around, IsContext};
ghost use Rattle.check_context.specs.Tells.{Tells};
ghost use Rattle.expression_checks.specs.Predecessors.{earlier_of, predecessor_in};
ghost use Rattle.expression_checks.specs.SoundElements.{are_all_sound, are_sound, AreSound};

use crate::earlier_elements::EarlierElements;
use check_context::{CheckContext, tell};
use class_table::{ClassTable, Element};
use semantic_diagnostics::Diagnostics;
use semantic_diagnostics::makers::{redeclaration, static_and_instance_private_identifier};
use semantic_syntax::ElementKind;
use semantic_tree::sound;
use std::alloc::{AllocError, Global};

/// Whether the element is a getter or a setter.
fn is_half(element: &Element<'_>) -> bool
    ensures { result ≡ rows.is_half (element_seen element.now) }
{
    element.kind.intersects(ElementKind::SetterOrGetter)
}

/// Whether two elements are both static, or both of instances.
fn share_static(before: &Element<'_>, own: &Element<'_>) -> bool
    ensures { result ≡ rows.same_truth before.now.is_static own.now.is_static }
{
    before.is_static == own.is_static
}

/// Whether two elements are a getter and a setter that belong together (ECMAScript 15.7.1, PrivateBoundIdentifiers).
fn are_halves(before: &Element<'_>, own: &Element<'_>) -> bool
    ensures { result ≡ rows.are_halves (element_seen before.now) (element_seen own.now) }
{
    is_half(before) && is_half(own) && before.kind != own.kind && share_static(before, own)
}

/// Whether an element clashes with its predecessor. Public ones do in TypeScript alone (TypeScript 2300).
fn clash(in_typescript: bool, before: &Element<'_>, own: &Element<'_>) -> bool
    ensures { result ≡ rows.clash in_typescript (element_seen before.now) (element_seen own.now) }
{
    !are_halves(before, own) && (own.is_private || (in_typescript && share_static(before, own)))
}

/// Whether one of two private elements in TypeScript is static, and the other isn't (`TS(2804)`).
fn are_mixed(in_typescript: bool, before: &Element<'_>, own: &Element<'_>) -> bool
    ensures { result ≡ (own.now.is_private
        && (in_typescript && not (rows.same_truth before.now.is_static own.now.is_static))) }
{
    own.is_private && in_typescript && !share_static(before, own)
}

/// Tells of an element that clashes with its predecessor.
#[tactic(auto, using(check_context::proofs::Telling::made))]
fn tell_clash(
    alloc: Global,
    before: &Element<'_>,
    own: &Element<'_>,
    ctx: &CheckContext<'_, '_>,
    out: &mut Diagnostics,
) -> Result<(), AllocError>
    requires { is_sound ctx.now.source_text.now before.now.span ≡ true }
    ensures { Tells result (rows.clash_row (around ctx.now) (element_seen before.now)
        (element_seen own.now) ∷ []) out.old out.new }
{
    if are_mixed(ctx.source_type.is_typescript(), before, own) {
        let name = own.name.as_str();
        let (first, second) = (before.span, own.span);
        return tell(
            static_and_instance_private_identifier(alloc, name, first, second),
            out,
        );
    }
    let name = ctx.text_at(before.span);
    tell(redeclaration(alloc, name, before.span, own.span), out)
}

/// Tells of an element if it clashes with its predecessor.
#[tactic(auto, using(check_context::proofs::Telling::telling))]
fn tell_if_clash(
    alloc: Global,
    before: &Element<'_>,
    own: &Element<'_>,
    ctx: &CheckContext<'_, '_>,
    out: &mut Diagnostics,
) -> Result<(), AllocError>
    requires { is_sound ctx.now.source_text.now before.now.span ≡ true }
    ensures { let s = around ctx.now in
        Tells result
        (row_if (rows.clash (is_typescript s) (element_seen before.now) (element_seen own.now))
        (rows.clash_row s (element_seen before.now) (element_seen own.now))) out.old out.new }
{
    if clash(ctx.source_type.is_typescript(), before, own) {
        tell_clash(alloc, before, own, ctx, out)
    } else {
        Ok(())
    }
}

/// Tells of an element if it clashes with its predecessor among those before it.
#[tactic(auto, using(check_context::proofs::Telling::telling))]
fn tell_element(
    alloc: Global,
    own: &Element<'_>,
    earlier: &EarlierElements<'_, '_>,
    ctx: &CheckContext<'_, '_>,
    out: &mut Diagnostics,
) -> Result<(), AllocError>
    requires { IfSome (predecessor_in earlier.now (element_seen own.now))
        (λ before. is_sound ctx.now.source_text.now before.span ≡ true) }
    ensures { let s = around ctx.now in let e = element_seen own.now in
        Tells result (rows_of_some
        (λ before. row_if (rows.clash (is_typescript s) before e) (rows.clash_row s before e))
        (predecessor_in earlier.now e)) out.old out.new }
{
    match earlier.predecessor(own) {
        Some(before) => tell_if_clash(alloc, before, own, ctx, out),
        None => Ok(()),
    }
}

/// Tells of the elements of a class that clash, with no earlier ones at first.
#[tactic(auto, using(check_context::proofs::Telling::loop_telling))]
fn tell_elements<'n, 'a>(
    alloc: Global,
    elements: &'n [Element<'a>],
    earlier: &mut EarlierElements<'n, 'a>,
    ctx: &CheckContext<'_, '_>,
    out: &mut Diagnostics,
) -> Result<(), AllocError>
    requires sound { AreSound ctx.now.source_text.now (map element_seen elements.now) }
    requires fresh { earlier.old ≡ earlier_of [] }
    ensures { Tells result (rows.class_rows (around ctx.now) (map element_seen elements.entry.now))
        out.old out.new }
{
    for own in elements {
        tell_element(alloc, own, earlier, ctx, out)?;
        earlier.add(own)?;
    }
    Ok(())
}

/// Tells of the elements of a class that clash.
fn tell_class(
    alloc: Global,
    elements: &[Element<'_>],
    ctx: &CheckContext<'_, '_>,
    out: &mut Diagnostics,
) -> Result<(), AllocError>
    requires { AreSound ctx.now.source_text.now (map element_seen elements.now) }
    ensures { Tells result (rows.class_rows (around ctx.now) (map element_seen elements.now))
        out.old out.new }
{
    let mut earlier = EarlierElements::new(alloc);
    tell_elements(alloc, elements, &mut earlier, ctx, out)
}

fn elements_by_class<'t, 'a>(classes: &'t ClassTable<'a>) -> &'t [Vec<Element<'a>>]
    ensures { map (λ v. map element_seen v.items) result.now ≡ classes.entry.now.elements }
{
    classes.elements.as_slice()
}

/// Whether the elements of a class stand in the source, on characters.
#[tactic(auto, using(crate::proofs::AllSound::each_told))]
fn are_sound(source: &str, elements: &[Element<'_>]) -> bool
    ensures { result ≡ are_sound source.now (map element_seen elements.now) }
{
    for own in elements {
        if !sound::is_sound(source, own.span) {
            return false;
        }
    }
    true
}

/// Whether those of each class do.
#[tactic(auto, using(crate::proofs::AllSound::each_told))]
fn are_all_sound(source: &str, classes: &[Vec<Element<'_>>]) -> bool
    ensures { result ≡ are_all_sound source.now (map (λ v. map element_seen v.items) classes.now) }
{
    for elements in classes {
        if !are_sound(source, elements.as_slice()) {
            return false;
        }
    }
    true
}

/// Whether the elements of each class that is handed in stand in the source, on characters.
pub fn has_sound_elements(ctx: &CheckContext<'_, '_>) -> bool
    ensures { result ≡ are_all_sound ctx.now.source_text.now ctx.now.classes.now.classes.elements }
{
    are_all_sound(ctx.source_text, elements_by_class(&ctx.classes.classes))
}

/// Tells of the elements of each class that clash.
#[tactic(auto, using(check_context::proofs::Telling::loop_telling))]
fn tell_classes(
    alloc: Global,
    classes: &[Vec<Element<'_>>],
    ctx: &CheckContext<'_, '_>,
    out: &mut Diagnostics,
) -> Result<(), AllocError>
    requires { AllByRecursion (AreSound ctx.now.source_text.now)
        (map (λ v. map element_seen v.items) classes.now) }
    ensures { Tells result (flat_map (rows.class_rows (around ctx.now))
        (map (λ v. map element_seen v.items) classes.now)) out.old out.new }
{
    for elements in classes {
        tell_class(alloc, elements.as_slice(), ctx, out)?;
    }
    Ok(())
}

/// The elements of a class don't clash: of private names there is one element, or a getter and a setter that are both
/// static or both not (ECMAScript 15.7.1, PrivateBoundIdentifiers; `TS(2804)`), and in TypeScript the same holds of
/// public names (TypeScript 2300). The context is that of the program. Each class takes one pass.
#[tactic(auto, using(check_context::proofs::Telling::telling))]
pub fn check_duplicate_class_elements<'a>(
    alloc: Global,
    ctx: &CheckContext<'a, '_>,
    out: &mut Diagnostics,
) -> Result<(), AllocError>
    requires context { IsContext ctx.now }
    requires elements { AllByRecursion
        (AreSound ctx.now.source_text.now) ctx.now.classes.now.classes.elements }
    ensures { Tells result (rows.check_duplicate_class_elements (around ctx.now)) out.old out.new }
{
    tell_classes(alloc, elements_by_class(&ctx.classes.classes), ctx, out)
}
