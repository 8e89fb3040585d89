//! Diagnostics on functions, classes and expressions.
ghost use Rattle.std.specs.Prelude.{◌≡◌, IfOk};
ghost use Rattle.std.specs.Str.{chars};
ghost use Rattle.semantic_diagnostics.specs.Functions as specs;

use crate::diagnostic::Diagnostic;
use crate::parts::{at, one, plain, said_at, two};
use crate::texts::{around, fixed};
use semantic_syntax::Span;
use std::alloc::{AllocError, Global};

/// A class with a constructor at `first` and another at `second`.
pub fn duplicate_constructor(
    alloc: Global,
    first: Span,
    second: Span,
) -> Result<Diagnostic, AllocError>
    ensures { IfOk result (λ made. made ≡ specs.duplicate_constructor first second) }
{
    let message = fixed(
        alloc,
        "Multiple constructor implementations are not allowed.",
    )?;
    let first = said_at(
        first,
        fixed(alloc, "constructor has already been declared here")?,
    );
    let second = said_at(second, fixed(alloc, "it cannot be redeclared here")?);
    two(alloc, message, first, second)
}

/// A class declaration without a name.
pub fn require_class_name(alloc: Global, span: Span) -> Result<Diagnostic, AllocError>
    ensures { IfOk result (λ made. made ≡ specs.require_class_name span) }
{
    let message = fixed(alloc, "A class name is required.")?;
    plain(alloc, message, span)
}

/// A type predicate elsewhere than as a return type.
pub fn type_predicate_only_in_return_type(
    alloc: Global,
    span: Span,
) -> Result<Diagnostic, AllocError>
    ensures { IfOk result (λ made. made ≡ specs.type_predicate_only_in_return_type span) }
{
    let message = fixed(
        alloc,
        "A type predicate is only allowed in return type position for functions and methods.",
    )?;
    plain(alloc, message, span)?.with_code(alloc, "TS(1228)")
}

/// A call of `super` in a class that extends nothing.
pub fn super_without_derived_class(
    alloc: Global,
    span: Span,
    class_span: Span,
) -> Result<Diagnostic, AllocError>
    ensures { IfOk result (λ made. made ≡ specs.super_without_derived_class span class_span) }
{
    let message = fixed(alloc, "'super' can only be referenced in a derived class.")?;
    let first = at(span);
    let second = said_at(class_span, fixed(alloc, "class does not have `extends`")?);
    two(alloc, message, first, second)?.with_help(
        alloc,
        "either remove this super, or extend the class",
    )
}

/// A call of `super` outside of constructors.
pub fn unexpected_super_call(alloc: Global, span: Span) -> Result<Diagnostic, AllocError>
    ensures { IfOk result (λ made. made ≡ specs.unexpected_super_call span) }
{
    let message = fixed(
        alloc,
        "Super calls are not permitted outside constructors or in nested functions inside constructors.",
    )?;
    plain(alloc, message, span)?.with_code(alloc, "TS(2337)")
}

/// A use of `super` outside of methods.
pub fn unexpected_super_reference(alloc: Global, span: Span) -> Result<Diagnostic, AllocError>
    ensures { IfOk result (λ made. made ≡ specs.unexpected_super_reference span) }
{
    let message = fixed(
        alloc,
        "'super' can only be referenced in members of derived classes or object literal expressions.",
    )?;
    plain(alloc, message, span)
}

/// `delete` of a bare name in strict mode code.
pub fn delete_of_unqualified(alloc: Global, span: Span) -> Result<Diagnostic, AllocError>
    ensures { IfOk result (λ made. made ≡ specs.delete_of_unqualified span) }
{
    let message = fixed(alloc, "Delete of an unqualified identifier in strict mode.")?;
    plain(alloc, message, span)
}

/// `delete` of a private member.
pub fn delete_private_field(alloc: Global, span: Span) -> Result<Diagnostic, AllocError>
    ensures { IfOk result (λ made. made ≡ specs.delete_private_field span) }
{
    let message = fixed(
        alloc,
        "The operand of a 'delete' operator cannot be a private identifier.",
    )?;
    plain(alloc, message, span)
}

/// An expression of the keyword, `await` or `yield`, in a parameter.
pub fn await_or_yield_in_parameter(
    alloc: Global,
    keyword: &str,
    span: Span,
) -> Result<Diagnostic, AllocError>
    ensures { IfOk result (λ made. made
        ≡ specs.await_or_yield_in_parameter (chars keyword.now) span) }
{
    let message = around(
        alloc,
        "",
        keyword,
        " expression not allowed in formal parameter",
    )?;
    one(
        alloc,
        message,
        said_at(
            span,
            around(
                alloc,
                "",
                keyword,
                " expression not allowed in formal parameter",
            )?,
        ),
    )
}
