//! A diagnostic and its labels.
ghost use Rattle.std.specs.Prelude.{◌≡◌, [], ◌∷◌, ◌++◌, OnOk, OnErr};

use semantic_syntax::{Span, Text};
use std::alloc::{AllocError, Global};
use std::marker::Model;

/// A span of the source, and what is said of it, if anything.
#[derive(Drop)]
pub struct Label {
    pub span: Span,
    pub text: Option<Text>,
}

/// The labels of a diagnostic. Contracts see a list.
#[derive(Drop)]
pub struct Labels {
    labels: Vec<Label>,
}

impl Model for Labels {
    ghost use Rattle.std.specs.Prelude.{List};
    ghost use Rattle.semantic_diagnostics.specs.declared.diagnostic.Label.{Label};

    ghost Value = { List Label };

    ghost view = { λ a. a.labels.items };
}

/// What is wrong in a program. A code of TypeScript's reads `TS(1228)`.
#[derive(Drop)]
pub struct Diagnostic {
    pub code: Option<Text>,
    pub message: Text,
    pub labels: Labels,
    pub help: Option<Text>,
    pub note: Option<Text>,
}

impl Labels {
    /// No labels.
    pub fn new(alloc: Global) -> Labels
        ensures { result ≡ [] }
    {
        Labels {
            labels: Vec::new(alloc),
        }
    }

    /// Adds a label as the last one. After want of memory the labels are as before.
    pub fn push(&mut self, label: Label) -> Result<(), AllocError>
        ensures ok { OnOk result (self.new ≡ self.old ++ label ∷ []) }
        ensures err { OnErr result (self.new ≡ self.old) }
    {
        self.labels.push(label)?;
        Ok(())
    }

    /// The labels, in order.
    pub fn as_slice(&self) -> &[Label]
        ensures { result.now ≡ self.now }
    {
        self.labels.as_slice()
    }
}
