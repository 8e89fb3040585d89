//! Diagnostics on names and literals.
ghost use Rattle.std.specs.Prelude.{◌≡◌, IfOk};
ghost use Rattle.std.specs.Str.{chars};
ghost use Rattle.semantic_diagnostics.specs.Names as specs;

use crate::contexts::{ReservedKeywordContext, UnexpectedIdentifierAssignContext};
use crate::diagnostic::Diagnostic;
use crate::parts::{plain, redeclared};
use crate::texts::{around, fixed};
use semantic_syntax::Span;
use std::alloc::{AllocError, Global};

/// The name is declared at `first` and may not be declared again at `second`.
pub fn redeclaration(
    alloc: Global,
    name: &str,
    first: Span,
    second: Span,
) -> Result<Diagnostic, AllocError>
    ensures { IfOk result (λ made. made ≡ specs.redeclaration (chars name.now) first second) }
{
    let message = around(alloc, "Identifier `", name, "` has already been declared")?;
    redeclared(alloc, message, "`", name, first, second)
}

/// The private name belongs to a static and to an instance element of one class.
pub fn static_and_instance_private_identifier(
    alloc: Global,
    name: &str,
    first: Span,
    second: Span,
) -> Result<Diagnostic, AllocError>
    ensures { IfOk result (λ made. made
        ≡ specs.static_and_instance_private_identifier (chars name.now) first second) }
{
    let message = around(
        alloc,
        "Duplicate identifier `#",
        name,
        "`. Static and instance elements cannot share the same private name.",
    )?;
    redeclared(alloc, message, "`#", name, first, second)?.with_code(alloc, "TS(2804)")
}

/// The exported name is declared nowhere in the module.
pub fn undefined_export(alloc: Global, name: &str, span: Span) -> Result<Diagnostic, AllocError>
    ensures { IfOk result (λ made. made ≡ specs.undefined_export (chars name.now) span) }
{
    let message = around(alloc, "Export '", name, "' is not defined")?;
    plain(alloc, message, span)
}

/// `await` in a static block of a class.
pub fn class_static_block_await(alloc: Global, span: Span) -> Result<Diagnostic, AllocError>
    ensures { IfOk result (λ made. made ≡ specs.class_static_block_await span) }
{
    let message = fixed(
        alloc,
        "Cannot use await in class static initialization block",
    )?;
    plain(alloc, message, span)
}

/// `for await` in a static block of a class.
pub fn class_static_block_for_await(alloc: Global, span: Span) -> Result<Diagnostic, AllocError>
    ensures { IfOk result (λ made. made ≡ specs.class_static_block_for_await span) }
{
    let message = fixed(
        alloc,
        "Cannot use 'for await' in class static initialization block",
    )?;
    plain(alloc, message, span)
}

/// `await using` in a static block of a class.
pub fn class_static_block_await_using(alloc: Global, span: Span) -> Result<Diagnostic, AllocError>
    ensures { IfOk result (λ made. made ≡ specs.class_static_block_await_using span) }
{
    let message = fixed(
        alloc,
        "Cannot use 'await using' in class static initialization block",
    )?;
    plain(alloc, message, span)
}

// Why it is so.
fn reserved_keyword_note(context: ReservedKeywordContext) -> &'static str
    ensures { result.now ≡ specs.reserved_keyword_note context }
{
    match context {
        ReservedKeywordContext::StrictMode => "This identifier is reserved in strict mode code",
        ReservedKeywordContext::Class => "Classes are always strict mode code",
        ReservedKeywordContext::Module => "Modules are always strict mode code",
        ReservedKeywordContext::ModuleAwait => "The identifier `await` is reserved in module code",
    }
}

/// The word is reserved where it stands, and the context says why.
pub fn reserved_keyword(
    alloc: Global,
    name: &str,
    span: Span,
    context: ReservedKeywordContext,
) -> Result<Diagnostic, AllocError>
    ensures { IfOk result (λ made. made ≡ specs.reserved_keyword (chars name.now) span context) }
{
    let message = around(alloc, "The keyword '", name, "' is reserved")?;
    plain(alloc, message, span)?.with_note(alloc, reserved_keyword_note(context))
}

// Why it is so.
fn unexpected_identifier_assign_note(context: UnexpectedIdentifierAssignContext) -> &'static str
    ensures { result.now ≡ specs.unexpected_identifier_assign_note context }
{
    match context {
        UnexpectedIdentifierAssignContext::StrictMode => "This is strict mode code",
        UnexpectedIdentifierAssignContext::Class => "Classes are always strict mode code",
        UnexpectedIdentifierAssignContext::Module => "Modules are always strict mode code",
    }
}

/// `eval` or `arguments` is bound or assigned to in strict mode code, and the context says why it is strict.
pub fn unexpected_identifier_assign(
    alloc: Global,
    name: &str,
    span: Span,
    context: UnexpectedIdentifierAssignContext,
) -> Result<Diagnostic, AllocError>
    ensures { IfOk result (λ made. made
        ≡ specs.unexpected_identifier_assign (chars name.now) span context) }
{
    let message = around(alloc, "Cannot assign to '", name, "' in strict mode")?;
    plain(alloc, message, span)?.with_note(alloc, unexpected_identifier_assign_note(context))
}

/// `let` is bound by a lexical declaration of the given keyword.
pub fn invalid_let_declaration(
    alloc: Global,
    keyword: &str,
    span: Span,
) -> Result<Diagnostic, AllocError>
    ensures { IfOk result (λ made. made ≡ specs.invalid_let_declaration (chars keyword.now) span) }
{
    let message = around(
        alloc,
        "`let` cannot be declared as a variable name inside of a `",
        keyword,
        "` declaration",
    )?;
    plain(alloc, message, span)
}

/// `arguments` in the place that is named, where it has no meaning.
pub fn unexpected_arguments(
    alloc: Global,
    place: &str,
    span: Span,
) -> Result<Diagnostic, AllocError>
    ensures { IfOk result (λ made. made ≡ specs.unexpected_arguments (chars place.now) span) }
{
    let message = around(alloc, "'arguments' is not allowed in ", place, "")?;
    plain(alloc, message, span)?.with_help(
        alloc,
        "Assign the 'arguments' variable to a temporary variable outside",
    )
}

/// A private name outside of every class.
pub fn private_not_in_class(alloc: Global, name: &str, span: Span) -> Result<Diagnostic, AllocError>
    ensures { IfOk result (λ made. made ≡ specs.private_not_in_class (chars name.now) span) }
{
    let message = around(
        alloc,
        "Private identifier '#",
        name,
        "' is not allowed outside class bodies",
    )?;
    plain(alloc, message, span)
}

/// No class around declares the private name.
pub fn private_field_undeclared(
    alloc: Global,
    name: &str,
    span: Span,
) -> Result<Diagnostic, AllocError>
    ensures { IfOk result (λ made. made ≡ specs.private_field_undeclared (chars name.now) span) }
{
    let message = around(
        alloc,
        "Private field '#",
        name,
        "' must be declared in an enclosing class",
    )?;
    plain(alloc, message, span)
}

/// A number or an escape in the octal form of old, in strict mode code.
pub fn legacy_octal(alloc: Global, span: Span) -> Result<Diagnostic, AllocError>
    ensures { IfOk result (λ made. made ≡ specs.legacy_octal span) }
{
    let message = fixed(
        alloc,
        "'0'-prefixed octal literals and octal escape sequences are deprecated",
    )?;
    plain(alloc, message, span)?.with_help(alloc, "for octal literals use the '0o' prefix instead")
}

/// A decimal number that begins with `0`, in strict mode code.
pub fn leading_zero_decimal(alloc: Global, span: Span) -> Result<Diagnostic, AllocError>
    ensures { IfOk result (λ made. made ≡ specs.leading_zero_decimal span) }
{
    let message = fixed(
        alloc,
        "Decimals with leading zeros are not allowed in strict mode",
    )?;
    plain(alloc, message, span)?.with_help(alloc, "remove the leading zero")
}

/// The escape `\8` or `\9` in strict mode code.
pub fn non_octal_decimal_escape_sequence(
    alloc: Global,
    span: Span,
) -> Result<Diagnostic, AllocError>
    ensures { IfOk result (λ made. made ≡ specs.non_octal_decimal_escape_sequence span) }
{
    let message = fixed(alloc, "Invalid escape sequence")?;
    plain(alloc, message, span)?.with_help(alloc, "\\8 and \\9 are not allowed in strict mode")
}

/// A `"use strict"` in a function whose parameters aren't simple.
pub fn illegal_use_strict(alloc: Global, span: Span) -> Result<Diagnostic, AllocError>
    ensures { IfOk result (λ made. made ≡ specs.illegal_use_strict span) }
{
    let message = fixed(
        alloc,
        "Illegal 'use strict' directive in function with non-simple parameter list",
    )?;
    plain(alloc, message, span)?.with_help(
        alloc,
        "Wrap this function with an IIFE with a 'use strict' directive that returns this function",
    )
}
