//! Lists of ids, which contracts see as numbers.
ghost use Rattle.std.specs.Prelude.{◌≡◌};

use semantic_syntax::{ReferenceId, SymbolId};
use std::marker::Model;

/// Ids of one kind, in the order in which they were found.
#[derive(Drop)]
pub struct IdList<I> {
    ids: Vec<I>,
}

impl<I> Model for IdList<I> {
    ghost use Rattle.std.specs.Prelude.{List};

    ghost Value = { List I };

    ghost view = { λ a. a.ids.items };
}

impl<I: Drop> IdList<I> {
    /// The list over the vector, without taking memory.
    pub fn new(ids: Vec<I>) -> IdList<I>
        ensures { result ≡ ids.items }
    {
        IdList { ids }
    }

    /// The ids, in order.
    pub fn as_slice(&self) -> &[I]
        ensures { result.now ≡ self.now }
    {
        self.ids.as_slice()
    }

    /// The ids as a vector, without taking memory.
    pub fn into_vec(self) -> Vec<I>
        ensures { result.items ≡ self }
    {
        self.ids
    }
}

/// Symbols.
pub type SymbolIdList = IdList<SymbolId>;

/// References.
pub type ReferenceIdList = IdList<ReferenceId>;
