//! New names for symbols.
ghost use Rattle.std.specs.Prelude.{◌≡◌, ◌++◌, [], ◌∷◌, Some, None, length, option_map, OnOk};
ghost use Rattle.std.specs.Str.{chars};
ghost use Rattle.mangle_model.specs.Assignment.{assignment_of};

use semantic_syntax::SymbolId;
use std::alloc::{AllocError, Global};
use std::marker::Model;

/// A new name or none for each symbol, by its number. The symbols past the last one have none. Contracts see the list.
#[derive(Drop)]
pub struct NewNames {
    names: Vec<Option<String>>,
}

impl Model for NewNames {
    ghost use Rattle.std.specs.Prelude.{ℕ, List, Option, map, option_map, string_bytes};
    ghost use Rattle.std.specs.Str.{chars};

    ghost Value = { List (Option (List ℕ)) };

    ghost view = { λ a. map (option_map (λ name. chars (string_bytes name))) a.names.items };
}

impl NewNames {
    /// No new names.
    pub fn new(alloc: Global) -> NewNames
        ensures { result ≡ [] }
    {
        NewNames {
            names: Vec::new(alloc),
        }
    }

    /// The next symbol keeps its name. The only error is want of memory.
    pub fn push_none(&mut self) -> Result<(), AllocError>
        ensures { OnOk result (self.new ≡ self.old ++ None ∷ []) }
    {
        self.names.push(None)?;
        Ok(())
    }

    /// The next symbol gets the name. The only error is want of memory.
    pub fn push(&mut self, alloc: Global, name: &str) -> Result<(), AllocError>
        ensures { OnOk result (self.new ≡ self.old ++ Some (chars name.now) ∷ []) }
    {
        let text = String::from_str(alloc, name)?;
        self.names.push(Some(text))?;
        Ok(())
    }

    /// How many symbols are spoken of.
    pub fn len(&self) -> usize
        ensures { result ≡ length self.now }
    {
        self.names.len()
    }

    /// The new name of the symbol of this number, if any.
    pub fn name_at(&self, number: usize) -> Option<&str>
        ensures { option_map (λ name. chars name.now) result ≡ assignment_of self.now number }
    {
        match self.names.get(number) {
            Some(Some(name)) => Some(name.as_str()),
            _ => None,
        }
    }

    /// The new name of the symbol, if any.
    pub fn get(&self, symbol: SymbolId) -> Option<&str>
        ensures { option_map (λ name. chars name.now) result ≡ assignment_of self.now symbol }
    {
        self.name_at(symbol.index())
    }
}
