//! The line on a diagnostic.
ghost use Rattle.std.specs.Prelude.{ℕ, ◌≡◌, ◌++◌, OnOk, option_map};
ghost use Rattle.std.specs.List.{flat_map};
ghost use Rattle.std.specs.Str.{encode_utf8_all};
ghost use Rattle.report_lines.specs.Pieces.{plain_or_dash};
ghost use Rattle.report_lines.specs.DiagnosticLine.{said_or_dash, label_text, diagnostic_line};

use crate::line::Line;
use semantic_diagnostics::{Diagnostic, Label};
use semantic_syntax::Text;
use std::alloc::AllocError;

// Adds a text as a JSON string behind a label, or a dash for none.
fn push_said(line: &mut Line, label: &str, text: &Option<Text>) -> Result<(), AllocError>
    ensures { OnOk result (line.new ≡ line.old ++ (label.now ++ said_or_dash text.now)) }
{
    match text {
        None => {
            line.push(label)?;
            line.push("-")
        }
        Some(text) => line.push_quoted(label, text.as_str()),
    }
}

// Adds a text as it is, or a dash for none.
fn push_plain(line: &mut Line, text: &Option<Text>) -> Result<(), AllocError>
    ensures { OnOk result (line.new
        ≡ line.old ++ plain_or_dash (option_map encode_utf8_all text.now)) }
{
    match text {
        None => line.push("-"),
        Some(text) => line.push(text.as_str()),
    }
}

// Adds a label of a diagnostic.
#[tactic(auto, unfolding(crate::specs::DiagnosticLine::label_text))]
fn push_label(line: &mut Line, label: &Label) -> Result<(), AllocError>
    ensures { OnOk result (line.new ≡ line.old ++ label_text label.now) }
{
    line.push_span(" at ", label.span)?;
    push_said(line, " ", &label.text)
}

// Adds the labels of a diagnostic.
fn push_labels(line: &mut Line, labels: &[Label]) -> Result<(), AllocError>
    ensures { OnOk result (line.new ≡ line.old ++ flat_map label_text labels.now) }
{
    for label in labels {
        push_label(line, label)?;
    }
    Ok(())
}

/// Makes the line of a diagnostic.
#[tactic(auto, unfolding(crate::specs::DiagnosticLine::diagnostic_line))]
pub fn make_diagnostic_line(line: &mut Line, diagnostic: &Diagnostic) -> Result<(), AllocError>
    ensures { OnOk result (line.new ≡ diagnostic_line diagnostic.now) }
{
    line.begin();
    line.push("diag ")?;
    push_plain(line, &diagnostic.code)?;
    line.push_quoted(" ", diagnostic.message.as_str())?;
    push_labels(line, diagnostic.labels.as_slice())?;
    push_said(line, " help ", &diagnostic.help)?;
    push_said(line, " note ", &diagnostic.note)?;
    line.push("\n")
}
