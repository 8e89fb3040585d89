//! Diagnostics on statements.
ghost use Rattle.std.specs.Prelude.{◌≡◌, IfOk};
ghost use Rattle.std.specs.Str.{chars};
ghost use Rattle.semantic_diagnostics.specs.Statements as specs;

use crate::diagnostic::Diagnostic;
use crate::parts::{plain, redeclared, said_at, two};
use crate::texts::{around, fixed};
use semantic_syntax::Span;
use std::alloc::{AllocError, Global};

/// `using` at the top level of a script.
pub fn using_declaration_not_allowed_in_script(
    alloc: Global,
    span: Span,
) -> Result<Diagnostic, AllocError>
    ensures { IfOk result (λ made. made ≡ specs.using_declaration_not_allowed_in_script span) }
{
    let message = fixed(
        alloc,
        "'using' declarations are not allowed at the top level of a script",
    )?;
    plain(alloc, message, span)?.with_help(alloc, "Wrap this code in a block or use a module")
}

/// A function declaration as a body, in strict mode code.
pub fn function_declaration_strict(alloc: Global, span: Span) -> Result<Diagnostic, AllocError>
    ensures { IfOk result (λ made. made ≡ specs.function_declaration_strict span) }
{
    let message = fixed(alloc, "Invalid function declaration")?;
    plain(alloc, message, span)?.with_help(
        alloc,
        "In strict mode code, functions can only be declared at top level or inside a block",
    )
}

/// A function declaration as a body, in sloppy code.
pub fn function_declaration_non_strict(alloc: Global, span: Span) -> Result<Diagnostic, AllocError>
    ensures { IfOk result (λ made. made ≡ specs.function_declaration_non_strict span) }
{
    let message = fixed(alloc, "Invalid function declaration")?;
    plain(alloc, message, span)?.with_help(
        alloc,
        "In non-strict mode code, functions can only be declared at top level, inside a block, or as the body of an if statement",
    )
}

/// `with` in strict mode code or in TypeScript.
pub fn with_statement(alloc: Global, span: Span) -> Result<Diagnostic, AllocError>
    ensures { IfOk result (λ made. made ≡ specs.with_statement span) }
{
    let message = fixed(alloc, "'with' statements are not allowed")?;
    plain(alloc, message, span)
}

/// A jump whose label would have to be sought past a function.
pub fn invalid_label_jump_target(alloc: Global, span: Span) -> Result<Diagnostic, AllocError>
    ensures { IfOk result (λ made. made ≡ specs.invalid_label_jump_target span) }
{
    let message = fixed(alloc, "Jump target cannot cross function boundary.")?;
    plain(alloc, message, span)
}

/// A jump to a label that no statement around has.
pub fn invalid_label_target(alloc: Global, span: Span) -> Result<Diagnostic, AllocError>
    ensures { IfOk result (λ made. made ≡ specs.invalid_label_target span) }
{
    let message = fixed(alloc, "Use of undefined label")?;
    plain(alloc, message, span)
}

/// A jump of the keyword whose target, a labelled statement, is no loop.
pub fn invalid_label_non_iteration(
    alloc: Global,
    keyword: &str,
    target: Span,
    jump: Span,
) -> Result<Diagnostic, AllocError>
    ensures { IfOk result (λ made. made
        ≡ specs.invalid_label_non_iteration (chars keyword.now) target jump) }
{
    let message = around(
        alloc,
        "A `",
        keyword,
        "` statement can only jump to a label of an enclosing `for`, `while` or `do while` statement.",
    )?;
    let first = said_at(target, fixed(alloc, "This is an non-iteration statement")?);
    let second = said_at(jump, fixed(alloc, "for this label")?);
    two(alloc, message, first, second)
}

/// A `break` outside of loops and switches.
pub fn invalid_break(alloc: Global, span: Span) -> Result<Diagnostic, AllocError>
    ensures { IfOk result (λ made. made ≡ specs.invalid_break span) }
{
    let message = fixed(alloc, "Illegal break statement")?;
    plain(alloc, message, span)?.with_help(
        alloc,
        "A `break` statement can only be used within an enclosing iteration or switch statement.",
    )
}

/// A `continue` outside of loops.
pub fn invalid_continue(alloc: Global, span: Span) -> Result<Diagnostic, AllocError>
    ensures { IfOk result (λ made. made ≡ specs.invalid_continue span) }
{
    let message = fixed(
        alloc,
        "Illegal continue statement: no surrounding iteration statement",
    )?;
    plain(alloc, message, span)?.with_help(
        alloc,
        "A `continue` statement can only be used within an enclosing `for`, `while` or `do while` ",
    )
}

/// The label stands at `first` already and again, inside, at `second`.
pub fn label_redeclaration(
    alloc: Global,
    name: &str,
    first: Span,
    second: Span,
) -> Result<Diagnostic, AllocError>
    ensures { IfOk result (λ made. made ≡ specs.label_redeclaration (chars name.now) first second) }
{
    let message = around(alloc, "Label `", name, "` has already been declared")?;
    redeclared(alloc, message, "`", name, first, second)
}

/// An initializer in the head of a loop of the keyword, `for-in` or `for-of`.
pub fn unexpected_initializer_in_for_loop_head(
    alloc: Global,
    keyword: &str,
    span: Span,
) -> Result<Diagnostic, AllocError>
    ensures { IfOk result (λ made. made
        ≡ specs.unexpected_initializer_in_for_loop_head (chars keyword.now) span) }
{
    let message = around(
        alloc,
        "",
        keyword,
        " loop variable declaration may not have an initializer",
    )?;
    plain(alloc, message, span)
}
