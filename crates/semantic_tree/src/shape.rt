//! Whether a node has the form of its kind.

ghost use Rattle.std.specs.Prelude.{◌≡◌, ◌+◌, ◌==◌, ◌≤◌, length};
ghost use Rattle.semantic_tree.specs.Fit.{allows, lead, all_of, is_run, fit};
ghost use Rattle.semantic_tree.specs.Rules.{is_that_kind, number_in, is_method_value, is_member_name, is_foreign_local, function_stands, template_stands, class_stands, stands, keeps_table, names_foreign, is_rooted, is_well_formed};
ghost use Rattle.semantic_kinds.specs.Parts.{parts};

use crate::node::Node;
use crate::place::Place;
use semantic_kinds::allowed::{allowed_marks, may_have_text};
use semantic_kinds::class::{Class, is_module_name, is_of, is_word};
use semantic_kinds::part::{Count, Part, parts};
use semantic_kinds::{AstType, Marks, Role};

/// Whether a part may have so many children.
fn allows(count: Count, n: usize) -> bool
    ensures { result ≡ allows count n }
{
    match count {
        Count::One => n == 1,
        Count::AtMostOne => n <= 1,
        Count::AnyNumber => true,
        Count::AtLeastOne => 0 < n,
    }
}

/// How many children from the first on have the role.
fn lead(role: Role, children: &[(Role, Node)]) -> usize
    ensures lead { result ≡ lead role children.now }
    ensures within { result ≤ length children.now }
{
    let mut n = 0;
    for (own, _) in children {
        if *own != role {
            return n;
        }
        n += 1;
    }
    n
}

/// Whether each child is of the class.
fn all_of(class: Class, children: &[(Role, Node)]) -> bool
    ensures { result ≡ all_of class children.now }
{
    for (_, child) in children {
        if !is_of(class, child.kind, child.text.as_str()) {
            return false;
        }
    }
    true
}

/// Whether these children are what a part asks for.
fn is_run(part: Part, own: &[(Role, Node)]) -> bool
    ensures { result ≡ is_run part own.now }
{
    allows(part.count, own.len()) && all_of(part.class, own)
}

/// Whether the children are those that the kind asks for.
fn fits(kind: AstType, children: &[(Role, Node)]) -> bool
    ensures { result ≡ fit (parts kind) children.now }
{
    let mut left = children;
    for part in parts(kind) {
        let (own, rest) = left.split_at(lead(part.role, left));
        if !is_run(*part, own) {
            return false;
        }
        left = rest;
    }
    left.is_empty()
}

/// Whether there is a kind, and it is this one.
fn is_that_kind(own: Option<AstType>, kind: AstType) -> bool
    ensures { result ≡ is_that_kind own kind }
{
    match own {
        Some(own) => own == kind,
        None => false,
    }
}

/// How many children have the role.
fn number_in(role: Role, node: &Node) -> usize
    ensures { result ≡ number_in role node.now }
{
    let mut n = 0;
    for (own, _) in node.children.as_slice() {
        if *own == role {
            n += 1;
        }
    }
    n
}

/// Whether one more child has the first role than the second.
fn has_one_more(role: Role, other: Role, node: &Node) -> bool
    ensures { result ≡ (number_in role node.now == number_in other node.now + 1) }
{
    number_in(role, node).checked_sub(1) == Some(number_in(other, node))
}

/// Whether a node at the place is the value of a method.
fn is_method_value(place: Place) -> bool
    ensures { result ≡ is_method_value place }
{
    is_that_kind(place.parent, AstType::MethodDefinition) && place.role == Role::Value
}

/// Whether a node at the place is the name of an enum member.
fn is_member_name(place: Place) -> bool
    ensures { result ≡ is_member_name place }
{
    is_that_kind(place.parent, AstType::TSEnumMember) && place.role == Role::Id
}

/// Whether a node at the place is the local name of an export from another module.
fn is_foreign_local(place: Place) -> bool
    ensures { result ≡ is_foreign_local place }
{
    is_that_kind(place.parent, AstType::ExportSpecifier)
        && place.role == Role::Local
        && is_that_kind(place.beyond, AstType::ExportFromDeclaration)
}

/// Whether a function may stand at the place.
fn function_stands(place: Place, node: &Node) -> bool
    ensures { result ≡ function_stands place node.now }
{
    if is_word(node.text.as_str(), "ts-empty-body") {
        return is_method_value(place) && number_in(Role::Id, node) == 0;
    }
    !is_method_value(place) || is_word(node.text.as_str(), "expression")
}

/// Whether a template has its quasis and may stand at the place.
fn template_stands(place: Place, node: &Node) -> bool
    ensures { result ≡ template_stands place node.now }
{
    has_one_more(Role::Quasis, Role::Expressions, node)
        && (!is_member_name(place) || number_in(Role::Expressions, node) == 0)
}

/// Whether a class has a heritage where it has type arguments.
fn class_stands(node: &Node) -> bool
    ensures { result ≡ class_stands node.now }
{
    number_in(Role::TypeArguments, node) == 0 || number_in(Role::Heritage, node) != 0
}

/// Whether a node keeps the rules of single kinds.
fn stands(place: Place, node: &Node) -> bool
    ensures { result ≡ stands place node.now.kind node.now }
{
    match node.kind {
        AstType::Function => function_stands(place, node),
        AstType::Class => class_stands(node),
        AstType::NumericLiteral => node.marks.is_single(),
        AstType::TemplateLiteral => template_stands(place, node),
        AstType::TSTemplateLiteralType => has_one_more(Role::Quasis, Role::Types, node),
        _ => true,
    }
}

/// Whether text, marks and children are those of the kind.
fn keeps_table(node: &Node) -> bool
    ensures { result ≡ keeps_table node.now }
{
    may_have_text(node.kind, node.text.as_str())
        && node.marks.is_within(Marks::of(allowed_marks(node.kind)))
        && fits(node.kind, node.children.as_slice())
}

/// Whether a node at a place has the form of its kind.
pub fn is_well_formed(place: Place, node: &Node) -> bool
    ensures { result ≡ is_well_formed place node.now }
{
    (place.parent.is_some() || node.kind == AstType::Program)
        && keeps_table(node)
        && stands(place, node)
        && (!is_foreign_local(place) || is_module_name(node.kind))
}
