//! Lists of diagnostics.
ghost use Rattle.std.specs.Prelude.{◌≡◌, [], ◌∷◌, ◌++◌, length, OnOk, OnErr};
ghost use Rattle.std.specs.Iterator.{at_most};
ghost use Rattle.std.specs.Map.Iter.{TakesFirst, deref};

use crate::diagnostic::Diagnostic;
use std::alloc::{AllocError, Global};
use std::marker::Model;
use std::slice;

/// Diagnostics in the order of their finding. Contracts see a list.
#[derive(Drop)]
pub struct Diagnostics {
    entries: Vec<Diagnostic>,
}

impl Model for Diagnostics {
    ghost use Rattle.std.specs.Prelude.{List};
    ghost use Rattle.semantic_diagnostics.specs.declared.diagnostic.Diagnostic.{Diagnostic};

    ghost Value = { List Diagnostic };

    ghost view = { λ a. a.entries.items };
}

impl Diagnostics {
    /// No diagnostics.
    pub fn new(alloc: Global) -> Diagnostics
        ensures { result ≡ [] }
    {
        Diagnostics {
            entries: Vec::new(alloc),
        }
    }

    /// How many there are.
    pub fn len(&self) -> usize
        ensures { result ≡ length self.now }
    {
        self.entries.len()
    }

    /// The diagnostics, in order.
    pub fn iter(&self) -> DiagnosticsIter<'_>
        ensures { result ≡ self.now }
    {
        DiagnosticsIter {
            entries: self.entries.iter(),
        }
    }

    /// The diagnostics, in order.
    pub fn as_slice(&self) -> &[Diagnostic]
        ensures { result.now ≡ self.now }
    {
        self.entries.as_slice()
    }

    /// Adds a diagnostic as the last one. After want of memory the list is as before.
    pub fn push(&mut self, diagnostic: Diagnostic) -> Result<(), AllocError>
        ensures ok { OnOk result (self.new ≡ self.old ++ diagnostic ∷ []) }
        ensures err { OnErr result (self.new ≡ self.old) }
    {
        self.entries.push(diagnostic)?;
        Ok(())
    }
}

/// The diagnostics that are left. Contracts see their list.
#[derive(Drop)]
pub struct DiagnosticsIter<'a> {
    entries: slice::Iter<'a, Diagnostic>,
}

impl<'a> Model for DiagnosticsIter<'a> {
    ghost use Rattle.std.specs.Prelude.{List};
    ghost use Rattle.std.specs.Slice.Iter.{iter_rest};
    ghost use Rattle.semantic_diagnostics.specs.declared.diagnostic.Diagnostic.{Diagnostic};

    ghost Value = { List Diagnostic };

    ghost view = { λ a. iter_rest a.entries };
}

impl<'a> Iterator for DiagnosticsIter<'a> {
    type Item = &'a Diagnostic;

    ghost next_gives = { TakesFirst deref };

    ghost remaining = { λ s. at_most (length s) };

    fn next(&mut self) -> Option<&'a Diagnostic> {
        self.entries.next()
    }
}
