//! The declarations of a symbol that is declared more than once.
ghost use Rattle.std.specs.Prelude.{◌≡◌, ◌≤◌, ◌++◌, [], ◌∷◌, IfOk, OnOk, OnErr};
ghost use Rattle.scoping_rows.specs.Plain.{plain_count};
ghost use Rattle.scoping_rows.specs.Redeclared.{elsewhere};

use semantic_syntax::{Redeclaration, Span, SymbolFlags};
use std::alloc::{AllocError, Global};
use std::marker::Model;

/// Declarations, in order. So many of them, from the first on, are known to be neither async functions nor generators:
/// where many functions share a name, the search for one that is goes on from there.
#[derive(Drop)]
pub struct Redeclarations {
    entries: Vec<Redeclaration>,
    plain: usize,
}

impl Model for Redeclarations {
    ghost use Rattle.std.specs.Prelude.{List, ◌≤◌};
    ghost use Rattle.semantic_syntax.specs.declared.references.Redeclaration.{Redeclaration};
    ghost use Rattle.scoping_rows.specs.Plain.{plain_count};

    ghost Value = { List Redeclaration };

    ghost view = { λ a. a.entries.items };

    ghost invariant = { λ a. a.plain ≤ plain_count a.entries.items };
}

/// Drops the declarations of the span.
fn retain_elsewhere(list: &mut Vec<Redeclaration>, span: Span)
    ensures { list.new.items ≡ elsewhere span list.old.items }
{
    list.retain(|entry| entry.span != span);
}

/// How many declarations stand before the first async function or generator, of which some are known.
fn plain_from(entries: &[Redeclaration], known: usize) -> usize
    requires { known ≤ plain_count entries.now }
    ensures { result ≡ plain_count entries.now }
{
    let mut plain = known;
    while plain < entries.len() {
        if entries[plain]
            .flags
            .intersects(SymbolFlags::AsyncOrGeneratorFunction)
        {
            return plain;
        }
        plain += 1;
    }
    plain
}

impl Redeclarations {
    /// Two declarations.
    pub fn new(
        alloc: Global,
        first: Redeclaration,
        second: Redeclaration,
    ) -> Result<Redeclarations, AllocError>
        ensures { IfOk result (λ list. list ≡ first ∷ second ∷ []) }
    {
        let entries = vec![in alloc; first, second]?;
        Ok(Redeclarations { entries, plain: 0 })
    }

    /// The declarations.
    pub fn as_slice(&self) -> &[Redeclaration]
        ensures { result.now ≡ self.now }
    {
        self.entries.as_slice()
    }

    /// How many stand before the first async function or generator; all where there is none.
    pub fn plain(&self) -> usize
        ensures { result ≡ plain_count self.now }
    {
        plain_from(&self.entries, self.plain)
    }

    /// Adds a declaration, last.
    pub fn push(&mut self, added: Redeclaration) -> Result<(), AllocError>
        ensures ok { OnOk result (self.new ≡ self.old ++ added ∷ []) }
        ensures err { OnErr result (self.new ≡ self.old) }
    {
        self.entries.push(added)?;
        self.plain = plain_from(&self.entries, self.plain);
        Ok(())
    }

    /// Drops those of the span.
    pub fn retain_elsewhere(&mut self, span: Span)
        ensures { self.new ≡ elsewhere span self.old }
    {
        retain_elsewhere(&mut self.entries, span);
        self.plain = plain_from(&self.entries, 0);
    }
}

impl Clone for Redeclarations {
    ghost is_clone = { λ x y. y ≡ x };

    fn clone(&self) -> Result<Redeclarations, AllocError> {
        Ok(Redeclarations {
            entries: self.entries.clone()?,
            plain: self.plain,
        })
    }
}
