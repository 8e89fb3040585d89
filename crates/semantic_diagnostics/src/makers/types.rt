//! Diagnostics on TypeScript.
ghost use Rattle.std.specs.Prelude.{◌≡◌, [], ◌∷◌, codes, IsTrue, IfOk};
ghost use Rattle.std.specs.List.{concat};
ghost use Rattle.std.specs.Str.{chars};
ghost use Rattle.semantic_kinds.specs.Ascii.{is_ascii};
ghost use Rattle.semantic_diagnostics.specs.Types as specs;

use crate::diagnostic::Diagnostic;
use crate::parts::plain;
use crate::texts::{around, around_word, fixed};
use semantic_syntax::{Span, Text};
use std::alloc::{AllocError, Global};

/// A type with JSDoc's mark in front or behind, and the TypeScript that may be meant.
pub fn jsdoc_type_in_annotation(
    alloc: Global,
    mark: char,
    at_start: bool,
    span: Span,
    suggestion: &str,
) -> Result<Diagnostic, AllocError>
    ensures { IfOk result (λ made. made
        ≡ specs.jsdoc_type_in_annotation mark at_start span (chars suggestion.now)) }
{
    if at_start {
        jsdoc_type(alloc, "TS(17020)", "start", mark, span, suggestion)
    } else {
        jsdoc_type(alloc, "TS(17019)", "end", mark, span, suggestion)
    }
}

// With the code and the word for the case.
fn jsdoc_type(
    alloc: Global,
    code: &str,
    place: &str,
    mark: char,
    span: Span,
    suggestion: &str,
) -> Result<Diagnostic, AllocError>
    requires code { IsTrue (is_ascii code.now) }
    requires word { IsTrue (is_ascii place.now) }
    ensures { IfOk result (λ made. made
        ≡ specs.jsdoc_type code.now place.now mark span (chars suggestion.now)) }
{
    let message = jsdoc_message(alloc, mark, place)?;
    let help = around(alloc, "Did you mean to write '", suggestion, "'?")?;
    let mut made = plain(alloc, message, span)?;
    made.help = Some(help);
    made.with_code(alloc, code)
}

// The mark stands at the place that is named.
fn jsdoc_message(alloc: Global, mark: char, place: &str) -> Result<Text, AllocError>
    requires { IsTrue (is_ascii place.now) }
    ensures { IfOk result (λ made. made
        ≡ concat (codes "'" ∷ (mark ∷ []) ∷ codes "' at the " ∷ place.now
        ∷ codes " of a type is not valid TypeScript syntax." ∷ [])) }
{
    let text = format!(in alloc;
        "'{mark}' at the {place} of a type is not valid TypeScript syntax."
    )?;
    Text::new(alloc, text.as_str())
}

/// A namespace elsewhere than at the top of a module or namespace.
pub fn not_allowed_namespace_declaration(
    alloc: Global,
    span: Span,
) -> Result<Diagnostic, AllocError>
    ensures { IfOk result (λ made. made ≡ specs.not_allowed_namespace_declaration span) }
{
    let message = fixed(
        alloc,
        "A namespace declaration is only allowed at the top level of a namespace or module.",
    )?;
    plain(alloc, message, span)?.with_code(alloc, "TS(1235)")
}

/// An ambient module elsewhere than at the top of a file.
pub fn not_allowed_ambient_module_declaration(
    alloc: Global,
    span: Span,
) -> Result<Diagnostic, AllocError>
    ensures { IfOk result (λ made. made ≡ specs.not_allowed_ambient_module_declaration span) }
{
    let message = fixed(
        alloc,
        "An ambient module declaration is only allowed at the top level in a file.",
    )?;
    plain(alloc, message, span)?.with_code(alloc, "TS(1234)")
}

/// An ambient module inside a module or namespace.
pub fn nested_ambient_module_declaration(
    alloc: Global,
    span: Span,
) -> Result<Diagnostic, AllocError>
    ensures { IfOk result (λ made. made ≡ specs.nested_ambient_module_declaration span) }
{
    let message = fixed(
        alloc,
        "Ambient modules cannot be nested in other modules or namespaces.",
    )?;
    plain(alloc, message, span)?.with_code(alloc, "TS(2435)")
}

/// A `global` without `declare` in code that isn't ambient.
pub fn global_scope_augmentation_should_have_declare_modifier(
    alloc: Global,
    span: Span,
) -> Result<Diagnostic, AllocError>
    ensures { IfOk result (λ made. made
        ≡ specs.global_scope_augmentation_should_have_declare_modifier span) }
{
    let message = fixed(
        alloc,
        "Augmentations for the global scope should have 'declare' modifier unless they appear in already ambient context.",
    )?;
    plain(alloc, message, span)?.with_code(alloc, "TS(2670)")
}

/// An enum member that can't count on from the one before.
pub fn enum_member_must_have_initializer(
    alloc: Global,
    span: Span,
) -> Result<Diagnostic, AllocError>
    ensures { IfOk result (λ made. made ≡ specs.enum_member_must_have_initializer span) }
{
    let message = fixed(alloc, "Enum member must have initializer.")?;
    plain(alloc, message, span)
}

/// An `infer` outside of the `extends` of a conditional type.
pub fn infer_declaration_only_permitted_in_extends_clause(
    alloc: Global,
    span: Span,
) -> Result<Diagnostic, AllocError>
    ensures { IfOk result (λ made. made
        ≡ specs.infer_declaration_only_permitted_in_extends_clause span) }
{
    let message = fixed(
        alloc,
        "'infer' declarations are only permitted in the 'extends' clause of a conditional type.",
    )?;
    plain(alloc, message, span)?.with_code(alloc, "TS(1338)")
}

/// An abstract property or method in a class that isn't abstract.
pub fn abstract_elem_in_concrete_class(
    alloc: Global,
    is_property: bool,
    span: Span,
) -> Result<Diagnostic, AllocError>
    ensures { IfOk result (λ made. made ≡ specs.abstract_elem_in_concrete_class is_property span) }
{
    if is_property {
        abstract_elem(alloc, "TS(1253)", "properties", span)
    } else {
        abstract_elem(alloc, "TS(1244)", "methods", span)
    }
}

// With the code and the word for the case.
fn abstract_elem(
    alloc: Global,
    code: &str,
    elements: &str,
    span: Span,
) -> Result<Diagnostic, AllocError>
    requires code { IsTrue (is_ascii code.now) }
    requires word { IsTrue (is_ascii elements.now) }
    ensures { IfOk result (λ made. made ≡ specs.abstract_elem code.now elements.now span) }
{
    let message = around_word(
        alloc,
        "Abstract ",
        elements,
        " can only appear within an abstract class.",
    )?;
    plain(alloc, message, span)?.with_code(alloc, code)
}

/// Signatures of a constructor without its implementation.
pub fn constructor_implementation_missing(
    alloc: Global,
    span: Span,
) -> Result<Diagnostic, AllocError>
    ensures { IfOk result (λ made. made ≡ specs.constructor_implementation_missing span) }
{
    let message = fixed(alloc, "Constructor implementation is missing.")?;
    plain(alloc, message, span)?.with_code(alloc, "TS(2390)")
}

/// Signatures of a method without its implementation right behind.
pub fn function_implementation_missing(alloc: Global, span: Span) -> Result<Diagnostic, AllocError>
    ensures { IfOk result (λ made. made ≡ specs.function_implementation_missing span) }
{
    let message = fixed(
        alloc,
        "Function implementation is missing or not immediately following the declaration.",
    )?;
    plain(alloc, message, span)?.with_code(alloc, "TS(2391)")
}

/// A parameter property in a constructor without body.
pub fn parameter_property_only_in_constructor_impl(
    alloc: Global,
    span: Span,
) -> Result<Diagnostic, AllocError>
    ensures { IfOk result (λ made. made ≡ specs.parameter_property_only_in_constructor_impl span) }
{
    let message = fixed(
        alloc,
        "A parameter property is only allowed in a constructor implementation.",
    )?;
    plain(alloc, message, span)?.with_code(alloc, "TS(2369)")
}

/// An accessor without body.
pub fn accessor_without_body(alloc: Global, span: Span) -> Result<Diagnostic, AllocError>
    ensures { IfOk result (λ made. made ≡ specs.accessor_without_body span) }
{
    let message = fixed(alloc, "Getters and setters must have an implementation.")?;
    plain(alloc, message, span)
}

/// A type on the variable of a `for-in` or `for-of`.
pub fn type_annotation_in_for_left(
    alloc: Global,
    span: Span,
    is_for_in: bool,
) -> Result<Diagnostic, AllocError>
    ensures { IfOk result (λ made. made ≡ specs.type_annotation_in_for_left span is_for_in) }
{
    if is_for_in {
        type_annotation(alloc, "TS(2404)", "for...in", span)
    } else {
        type_annotation(alloc, "TS(2483)", "for...of", span)
    }
}

// With the code and the word for the case.
fn type_annotation(
    alloc: Global,
    code: &str,
    statement: &str,
    span: Span,
) -> Result<Diagnostic, AllocError>
    requires code { IsTrue (is_ascii code.now) }
    requires word { IsTrue (is_ascii statement.now) }
    ensures { IfOk result (λ made. made ≡ specs.type_annotation code.now statement.now span) }
{
    let message = around_word(
        alloc,
        "The left-hand side of a '",
        statement,
        "' statement cannot use a type annotation.",
    )?;
    plain(alloc, message, span)?
        .with_help(
            alloc,
            "This iterator's type will be inferred from the iterable. You can safely remove the type annotation.",
        )?
        .with_code(alloc, code)
}

/// An `export =` beside other exports.
pub fn ts_export_assignment_cannot_be_used_with_other_exports(
    alloc: Global,
    span: Span,
) -> Result<Diagnostic, AllocError>
    ensures { IfOk result (λ made. made
        ≡ specs.ts_export_assignment_cannot_be_used_with_other_exports span) }
{
    let message = fixed(
        alloc,
        "An export assignment cannot be used in a module with other exported elements",
    )?;
    plain(alloc, message, span)?
        .with_help(
            alloc,
            "If you want to use `export =`, remove other `export`s and put all of them to the right hand value of `export =`. If you want to use `export`s, remove `export =` statement.",
        )?
        .with_code(alloc, "TS(2309)")
}
