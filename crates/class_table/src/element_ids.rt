//! The elements that a name means.
ghost use Rattle.std.specs.Prelude.{◌≡◌, [], ◌∷◌, ◌++◌, length, OnOk, OnErr};

use semantic_syntax::ElementId;
use std::alloc::{AllocError, Global};
use std::marker::Model;

/// Some elements of a class. Contracts see the list of their ids.
#[derive(Drop)]
pub struct ElementIds {
    entries: Vec<ElementId>,
}

impl Model for ElementIds {
    ghost use Rattle.std.specs.Prelude.{ℕ, List};

    ghost Value = { List ℕ };

    ghost view = { λ a. a.entries.items };
}

impl ElementIds {
    /// The name means no element yet.
    pub fn new(alloc: Global) -> ElementIds
        ensures { result ≡ [] }
    {
        ElementIds {
            entries: Vec::new(alloc),
        }
    }

    /// Adds an element as the last one. After want of memory the list is as before.
    pub fn push(&mut self, id: ElementId) -> Result<(), AllocError>
        ensures ok { OnOk result (self.new ≡ self.old ++ id ∷ []) }
        ensures err { OnErr result (self.new ≡ self.old) }
    {
        self.entries.push(id)?;
        Ok(())
    }

    /// How many elements there are.
    pub fn len(&self) -> usize
        ensures { result ≡ length self.now }
    {
        self.entries.len()
    }

    /// The ids, in order.
    pub fn as_slice(&self) -> &[ElementId]
        ensures { result.now ≡ self.now }
    {
        self.entries.as_slice()
    }
}
