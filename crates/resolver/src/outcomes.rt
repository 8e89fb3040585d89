//! What becomes of references that wait.
ghost use Rattle.std.specs.Prelude.{◌≡◌, [], ◌∷◌, ◌++◌, OnOk, OnErr};

use semantic_syntax::{ScopeId, SymbolId};
use std::alloc::{AllocError, Global};
use std::marker::Model;

/// What becomes of a reference that waits.
#[derive(Clone, Copy, PartialEq, Eq, Debug)]
pub enum Outcome {
    /// The reference means the symbol.
    Tied(SymbolId),
    /// The reference means no symbol: it is free.
    Free,
    /// It waits on, and is to be looked up from the scope.
    Pending(ScopeId),
}

/// Outcomes, in the order of their references. Contracts see a list.
#[derive(Drop)]
pub struct Outcomes {
    entries: Vec<Outcome>,
}

impl Model for Outcomes {
    ghost use Rattle.std.specs.Prelude.{List};
    ghost use Rattle.resolver.specs.declared.outcomes.Outcome.{Outcome};

    ghost Value = { List Outcome };

    ghost view = { λ o. o.entries.items };
}

impl Outcomes {
    pub(crate) fn new(alloc: Global) -> Outcomes
        ensures { result ≡ [] }
    {
        Outcomes {
            entries: Vec::new(alloc),
        }
    }

    pub(crate) fn push(&mut self, outcome: Outcome) -> Result<(), AllocError>
        ensures ok { OnOk result (self.new ≡ self.old ++ outcome ∷ []) }
        ensures err { OnErr result (self.new ≡ self.old) }
    {
        self.entries.push(outcome)?;
        Ok(())
    }

    /// The outcomes, in order.
    pub fn as_slice(&self) -> &[Outcome]
        ensures { result.now ≡ self.now }
    {
        self.entries.as_slice()
    }
}
