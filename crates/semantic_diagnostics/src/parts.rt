//! The parts of which diagnostics are made.
ghost use Rattle.std.specs.Prelude.{◌≡◌, [], ◌∷◌, IsTrue, IfOk};
ghost use Rattle.std.specs.Str.{chars};
ghost use Rattle.semantic_kinds.specs.Ascii.{is_ascii};
ghost use Rattle.semantic_diagnostics.specs.Parts as parts;

use crate::diagnostic::{Diagnostic, Label, Labels};
use crate::texts::{around, fixed};
use semantic_syntax::{Span, Text};
use std::alloc::{AllocError, Global};

/// A place of which nothing is said.
pub fn at(span: Span) -> Label
    ensures { result ≡ parts.bare_label span }
{
    Label { span, text: None }
}

/// A place of which something is said.
pub fn said_at(span: Span, text: Text) -> Label
    ensures { result ≡ parts.said_at span text }
{
    Label {
        span,
        text: Some(text),
    }
}

// A message with labels.
fn labelled(message: Text, labels: Labels) -> Diagnostic
    ensures { result ≡ parts.labelled message labels }
{
    Diagnostic {
        code: None,
        message,
        labels,
        help: None,
        note: None,
    }
}

/// A message with one label.
pub fn one(alloc: Global, message: Text, label: Label) -> Result<Diagnostic, AllocError>
    ensures { IfOk result (λ made. made ≡ parts.labelled message (label ∷ [])) }
{
    let mut labels = Labels::new(alloc);
    labels.push(label)?;
    Ok(labelled(message, labels))
}

/// A message with two labels.
pub fn two(
    alloc: Global,
    message: Text,
    first: Label,
    second: Label,
) -> Result<Diagnostic, AllocError>
    ensures { IfOk result (λ made. made ≡ parts.labelled message (first ∷ second ∷ [])) }
{
    let mut labels = Labels::new(alloc);
    labels.push(first)?;
    labels.push(second)?;
    Ok(labelled(message, labels))
}

/// A message at one place.
pub fn plain(alloc: Global, message: Text, span: Span) -> Result<Diagnostic, AllocError>
    ensures { IfOk result (λ made. made ≡ parts.plain message span) }
{
    one(alloc, message, at(span))
}

/// A message on a name, with its two places. `opening` stands in front of the name.
pub fn redeclared(
    alloc: Global,
    message: Text,
    opening: &str,
    name: &str,
    first: Span,
    second: Span,
) -> Result<Diagnostic, AllocError>
    requires { IsTrue (is_ascii opening.now) }
    ensures { IfOk result (λ made. made
        ≡ parts.redeclaration_message message opening.now (chars name.now) first second) }
{
    let first_text = around(alloc, opening, name, "` has already been declared here")?;
    let second_text = fixed(alloc, "It can not be redeclared here")?;
    two(
        alloc,
        message,
        said_at(first, first_text),
        said_at(second, second_text),
    )
}

impl Diagnostic {
    /// With this code.
    pub(crate) fn with_code(self, alloc: Global, code: &str) -> Result<Diagnostic, AllocError>
        requires { IsTrue (is_ascii code.now) }
        ensures { IfOk result (λ made. made ≡ parts.coded code.now self) }
    {
        let mut made = self;
        made.code = Some(fixed(alloc, code)?);
        Ok(made)
    }

    /// With this help.
    pub(crate) fn with_help(self, alloc: Global, help: &str) -> Result<Diagnostic, AllocError>
        requires { IsTrue (is_ascii help.now) }
        ensures { IfOk result (λ made. made ≡ parts.helped help.now self) }
    {
        let mut made = self;
        made.help = Some(fixed(alloc, help)?);
        Ok(made)
    }

    /// With this note.
    pub(crate) fn with_note(self, alloc: Global, note: &str) -> Result<Diagnostic, AllocError>
        requires { IsTrue (is_ascii note.now) }
        ensures { IfOk result (λ made. made ≡ parts.noted_with note.now self) }
    {
        let mut made = self;
        made.note = Some(fixed(alloc, note)?);
        Ok(made)
    }
}
