//! New names for names.
ghost use Rattle.std.specs.Prelude.{◌≡◌, [], Some, None, bytes_eq, cond, option_map, OnOk};
ghost use Rattle.std.specs.Map.{lookup};
ghost use Rattle.std.specs.Str.{chars};
ghost use Rattle.semantic_syntax.specs.Tables.{Name};
ghost use Rattle.mangle_model.specs.Assignment.{first_name};

use indexmap::IndexMap;
use std::alloc::{AllocError, Global};
use std::marker::Model;

/// New names for names. Contracts see a list of pairs.
#[derive(Drop)]
pub struct NameMap {
    names: IndexMap<String, String>,
}

impl Model for NameMap {
    ghost use Rattle.std.specs.Prelude.{ℕ, List, map, string_bytes};
    ghost use Rattle.std.specs.Str.{chars};

    ghost Value = { List (List ℕ × List ℕ) };

    ghost view = { λ a. map (λ e. (chars (string_bytes e.0), chars (string_bytes e.1))) a.names.entries };
}

impl NameMap {
    /// No names.
    pub fn new(alloc: Global) -> NameMap
        ensures { result ≡ [] }
    {
        NameMap {
            names: IndexMap::new(alloc),
        }
    }

    /// Adds a new name for a name, unless it has one. The only error is want of memory.
    pub fn add(&mut self, alloc: Global, name: &str, new_name: &str) -> Result<(), AllocError>
        ensures { OnOk result ((q : Name)
            → lookup (bytes_eq q) self.new
            ≡ first_name (lookup (bytes_eq q) self.old)
            (cond (bytes_eq q (chars name.now)) (Some (chars new_name.now)) None)) }
    {
        if self.names.contains_key(name) {
            return Ok(());
        }
        let key = String::from_str(alloc, name)?;
        let value = String::from_str(alloc, new_name)?;
        self.names.insert(key, value)?;
        Ok(())
    }

    /// The new name of the name, if it has one.
    pub fn get(&self, name: &str) -> Option<&str>
        ensures { option_map (λ text. chars text.now) result
            ≡ lookup (bytes_eq (chars name.now)) self.now }
    {
        match self.names.get(name) {
            Some(text) => Some(text.as_str()),
            None => None,
        }
    }
}
