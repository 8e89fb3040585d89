//! The elements that the members of a class make.
ghost use Rattle.std.specs.Prelude.{◌≡◌, map, option_map, IfOk};
ghost use Rattle.semantic_tree.specs.Views.{holds, child_of};
ghost use Rattle.semantic_model.specs.Element.{is_implemented, method_kind, element_with, element_of_method, element_of, elements_of};
ghost use Rattle.class_table.specs.Seen.{element_seen};

use crate::element::Element;
use semantic_kinds::class::is_word;
use semantic_syntax::ElementKind;
use semantic_tree::{AstKind, AstType, Mark, Role};
use std::alloc::{AllocError, Global};

/// Whether a function has a body, and isn't one that only TypeScript knows.
fn is_implemented(value: AstKind<'_>) -> bool
    ensures { result ≡ is_implemented value.entry.node.now }
{
    let form = value.text();
    value.child(Role::Body).is_some()
        && !(is_word(form.as_str(), "ts-declare") || is_word(form.as_str(), "ts-empty-body"))
}

/// Whether the function of a method is implemented.
fn has_implementation(member: AstKind<'_>) -> bool
    ensures { result ≡ holds is_implemented (child_of Role.Value member.entry.node.now) }
{
    match member.child(Role::Value) {
        Some(value) => is_implemented(value),
        None => false,
    }
}

/// What the element of a method is: a getter or setter is a method too.
fn method_kind(member: AstKind<'_>) -> ElementKind
    ensures { result.bits ≡ method_kind member.entry.node.now }
{
    let form = member.text();
    if is_word(form.as_str(), "get") {
        ElementKind::Method.union(ElementKind::Getter)
    } else if is_word(form.as_str(), "set") {
        ElementKind::Method.union(ElementKind::Setter)
    } else {
        ElementKind::Method
    }
}

/// The element of the kind with the name and the span of the member's key, if that has a name without running code
/// (ECMAScript 8.6.5, PropName).
fn element_with<'a>(kind: ElementKind, member: AstKind<'a>) -> Option<Element<'a>>
    ensures { option_map element_seen result ≡ element_with kind.bits member.entry.node.now }
{
    let key = member.child(Role::Key)?;
    let name = key.name()?;
    let is_private = key.ty() == AstType::PrivateIdentifier;
    Some(Element::new(
        name,
        key.span(),
        member.has_mark(Mark::Static),
        is_private,
        kind,
    ))
}

/// The element of a method; a constructor (ECMAScript's ConstructorMethod) and a method without body have none.
fn element_of_method<'a>(member: AstKind<'a>) -> Option<Element<'a>>
    ensures { option_map element_seen result ≡ element_of_method member.entry.node.now }
{
    if !is_word(member.text().as_str(), "constructor") && has_implementation(member) {
        element_with(method_kind(member), member)
    } else {
        None
    }
}

/// The element that a member of a class makes, if it makes one.
pub(crate) fn element_of<'a>(member: AstKind<'a>) -> Option<Element<'a>>
    ensures { option_map element_seen result ≡ element_of member.entry.node.now }
{
    match member.ty() {
        AstType::MethodDefinition => element_of_method(member),
        AstType::PropertyDefinition => element_with(ElementKind::Property, member),
        AstType::AccessorProperty => element_with(ElementKind::Accessor, member),
        _ => None,
    }
}

/// The elements that the members of a class body make, in order.
pub(crate) fn elements_of_body<'a>(
    alloc: Global,
    body: AstKind<'a>,
) -> Result<Vec<Element<'a>>, AllocError>
    ensures { IfOk result (λ es. map element_seen es.items
        ≡ elements_of body.entry.node.now.children) }
{
    let mut elements = Vec::new(alloc);
    for member in body.children(Role::Body) {
        if let Some(element) = element_of(member) {
            elements.push(element)?;
        }
    }
    Ok(elements)
}
