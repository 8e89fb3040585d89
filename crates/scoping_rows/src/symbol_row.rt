//! A symbol with the number of its name.
ghost use Rattle.std.specs.Prelude.{◌≡◌, ◌++◌, [], ◌∷◌, None, Some, unwrap_or, OnOk, OnErr};
ghost use Rattle.std.specs.Borrow.{sem};
ghost use Rattle.scoping_rows.specs.Row.{own_entry_of_row};
ghost use Rattle.scoping_rows.specs.Plain.{plain_count};
ghost use Rattle.scoping_rows.specs.Redeclared.{united, row_without_declaration};
ghost use Rattle.scoping_rows.specs.RowLending.{LendsRowFlags};

use crate::redeclarations::Redeclarations;
use semantic_syntax::{NodeId, Redeclaration, ScopeId, Span, SymbolFlags};
use std::alloc::{AllocError, Global};
use std::marker::Model;

/// A symbol with the number of its name. It has a list of redeclarations once it is declared twice.
#[derive(Drop)]
pub struct SymbolRow {
    name: usize,
    span: Span,
    flags: SymbolFlags,
    scope: ScopeId,
    node: NodeId,
    redeclarations: Option<Redeclarations>,
}

impl Model for SymbolRow {
    ghost use Rattle.scoping_rows.specs.Row.{Row};

    ghost Value = { Row };

    ghost view = { λ a. record { name = a.name; span = a.span; flags = a.flags; scope = a.scope; node = a.node; redeclarations = a.redeclarations } };
}

/// The flags of all of them.
fn united_flags(list: &[Redeclaration]) -> SymbolFlags
    ensures { result ≡ united list.now }
{
    let mut flags = SymbolFlags::empty();
    for entry in list {
        flags = flags.union(entry.flags);
    }
    flags
}

impl SymbolRow {
    /// A symbol that is declared once.
    pub fn new(
        name: usize,
        span: Span,
        flags: SymbolFlags,
        scope: ScopeId,
        node: NodeId,
    ) -> SymbolRow
        ensures { result ≡ record {
          name = name;
          span = span;
          flags = flags;
          scope = scope;
          node = node;
          redeclarations = None;
        } }
    {
        SymbolRow {
            name,
            span,
            flags,
            scope,
            node,
            redeclarations: None,
        }
    }

    /// The number of its name.
    pub fn name(&self) -> usize
        ensures { result ≡ self.now.name }
    {
        self.name
    }

    /// Where it is declared.
    pub fn span(&self) -> Span
        ensures { result ≡ self.now.span }
    {
        self.span
    }

    /// What it is.
    pub fn flags(&self) -> SymbolFlags
        ensures { result ≡ self.now.flags }
    {
        self.flags
    }

    /// The scope to which it belongs.
    pub fn scope(&self) -> ScopeId
        ensures { result ≡ self.now.scope }
    {
        self.scope
    }

    /// The node that declares it.
    pub fn node(&self) -> NodeId
        ensures { result ≡ self.now.node }
    {
        self.node
    }

    /// Its redeclarations; none where it has no list.
    pub fn redeclarations(&self) -> &[Redeclaration]
        ensures { result.now ≡ unwrap_or self.now.redeclarations [] }
    {
        match &self.redeclarations {
            Some(list) => list.as_slice(),
            None => &[],
        }
    }

    /// How many of its redeclarations stand before the first async function or generator; all where there is none.
    pub fn plain_redeclarations(&self) -> usize
        ensures { result ≡ plain_count (unwrap_or self.now.redeclarations []) }
    {
        match &self.redeclarations {
            Some(list) => list.plain(),
            None => 0,
        }
    }

    /// Gives it the name of that number.
    pub fn set_name(&mut self, name: usize)
        ensures { self.new ≡ record self.old { name = name } }
    {
        self.name = name;
    }

    /// Puts it at the place.
    pub fn set_span(&mut self, span: Span)
        ensures { self.new ≡ record self.old { span = span } }
    {
        self.span = span;
    }

    /// Makes it what the flags say.
    pub fn set_flags(&mut self, flags: SymbolFlags)
        ensures { self.new ≡ record self.old { flags = flags } }
    {
        self.flags = flags;
    }

    /// What it is, to be changed.
    pub fn flags_mut(&mut self) -> &mut SymbolFlags
        ensures* writes_back { sem 𝓛 (LendsRowFlags self.entry result) }
        ensures value { result.now ≡ self.old.flags }
    {
        &mut self.flags
    }

    /// Gives it to the scope.
    pub fn set_scope(&mut self, scope: ScopeId)
        ensures { self.new ≡ record self.old { scope = scope } }
    {
        self.scope = scope;
    }

    /// Adds the declaration to the list, last. Where there is no list, the symbol's own entry goes first.
    pub fn add_redeclaration(
        &mut self,
        alloc: Global,
        added: Redeclaration,
    ) -> Result<(), AllocError>
        ensures ok { OnOk result
            (self.new
            ≡ record self.old {
              redeclarations = Some
                  (unwrap_or self.old.redeclarations (own_entry_of_row self.old ∷ []) ++ added
                  ∷ []);
            }) }
        ensures err { OnErr result (self.new ≡ self.old) }
    {
        if let Some(list) = &mut self.redeclarations {
            list.push(added)?;
            return Ok(());
        }
        let own = Redeclaration {
            span: self.span,
            declaration: self.node,
            flags: self.flags,
        };
        self.redeclarations = Some(Redeclarations::new(alloc, own, added)?);
        Ok(())
    }

    /// Drops the redeclarations of the span. Where one or more stay, the first gives the span and the node, and
    /// their united flags the flags; where exactly one stays the list goes. Without a list nothing happens.
    pub fn remove_declaration(&mut self, span: Span)
        ensures { self.new ≡ row_without_declaration self.old span }
    {
        let Some(list) = &mut self.redeclarations else {
            return;
        };
        list.retain_elsewhere(span);
        let left = list.as_slice();
        let Some(first) = left.first() else {
            return;
        };
        self.span = first.span;
        self.node = first.declaration;
        self.flags = united_flags(left);
        if left.len() == 1 {
            self.redeclarations = None;
        }
    }

    /// Forgets the list.
    pub fn clear_redeclarations(&mut self)
        ensures { self.new ≡ record self.old { redeclarations = None } }
    {
        self.redeclarations = None;
    }
}

impl Clone for SymbolRow {
    ghost is_clone = { λ x y. y ≡ x };

    fn clone(&self) -> Result<SymbolRow, AllocError> {
        Ok(SymbolRow {
            name: self.name,
            span: self.span,
            flags: self.flags,
            scope: self.scope,
            node: self.node,
            redeclarations: self.redeclarations.clone()?,
        })
    }
}
