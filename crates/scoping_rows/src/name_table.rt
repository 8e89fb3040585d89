//! Names, each with a number.
ghost use Rattle.std.specs.Prelude.{◌≡◌, ◌<◌, [], length, MatchOption, IfOk, OnErr};
ghost use Rattle.std.specs.Str.{chars, encode_utf8_all};
ghost use Rattle.scoping_rows.specs.Names.{name_of, name_at, IsUnknown, IsNumberOf, IsInterned};

use indexmap::IndexSet;
use semantic_syntax::Ident;
use std::alloc::{AllocError, Global};
use std::marker::Model;

/// Names, each with a number. A name keeps its number.
#[derive(Drop)]
pub struct NameTable {
    alloc: Global,
    texts: IndexSet<String>,
}

impl Model for NameTable {
    ghost use Rattle.std.specs.Prelude.{ℕ, List, map, string_bytes};
    ghost use Rattle.std.specs.Str.{chars};

    ghost Value = { List (List ℕ) };

    ghost view = { λ t. map (λ k. chars (string_bytes k)) t.texts.keys };
}

impl NameTable {
    /// A table without names.
    pub fn new(alloc: Global) -> NameTable
        ensures { result ≡ [] }
    {
        NameTable {
            alloc,
            texts: IndexSet::new(alloc),
        }
    }

    /// The number of the name, where it has one.
    pub fn find(&self, name: Ident<'_>) -> Option<usize>
        ensures { MatchOption result (IsUnknown self.now (name_of name.entry))
            (λ n. IsNumberOf self.now (name_of name.entry) n) }
    {
        let _count = self.texts.len();
        self.texts.get_index_of(name.as_str())
    }

    /// The number of the name, which is given one where it has none.
    pub fn intern(&mut self, name: Ident<'_>) -> Result<usize, AllocError>
        ensures ok { IfOk result (λ n. IsInterned self.old self.new (name_of name.entry) n) }
        ensures err { OnErr result (self.new ≡ self.old) }
    {
        if let Some(number) = self.find(name) {
            return Ok(number);
        }
        let number = self.texts.len();
        let text = String::from_str(self.alloc, name.as_str())?;
        self.texts.insert(text)?;
        Ok(number)
    }

    /// The name that has the number.
    pub fn name(&self, number: usize) -> &str
        requires { number < length self.now }
        ensures characters { chars result.now ≡ name_at self.now number }
        ensures bytes { result.now ≡ encode_utf8_all (name_at self.now number) }
    {
        self.texts.as_slice()[number].as_str()
    }

    /// A number is its name's only one.
    pub fn attest(&self, number: usize)
        requires { number < length self.now }
        ensures { IsNumberOf self.now (name_at self.now number) number }
    {
        let _count = self.texts.len();
    }

    /// Makes room for more names.
    pub fn reserve(&mut self, names: usize) -> Result<(), AllocError>
        ensures { self.new ≡ self.old }
    {
        self.texts.reserve(names)
    }
}

impl Clone for NameTable {
    ghost is_clone = { λ t u. u ≡ t };

    fn clone(&self) -> Result<NameTable, AllocError> {
        Ok(NameTable {
            alloc: self.alloc,
            texts: self.texts.clone()?,
        })
    }
}
