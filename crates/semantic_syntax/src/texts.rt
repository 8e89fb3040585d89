//! Texts, owned and borrowed.
ghost use Rattle.std.specs.Prelude.{◌≡◌, IfOk};
ghost use Rattle.std.specs.Str.{chars, encode_utf8_all};

use std::alloc::{AllocError, Global};
use std::marker::Model;

/// An owned text. Contracts see its characters.
#[derive(Drop, Debug)]
pub struct Text {
    text: String,
}

impl Model for Text {
    ghost use Rattle.std.specs.Prelude.{List, ℕ, string_bytes};
    ghost use Rattle.std.specs.Str.{chars};

    ghost Value = { List ℕ };

    ghost view = { λ a. chars (string_bytes a.text) };
}

impl Text {
    pub fn new(alloc: Global, text: &str) -> Result<Text, AllocError>
        ensures { IfOk result (λ made. made ≡ chars text.now) }
    {
        Ok(Text {
            text: String::from_str(alloc, text)?,
        })
    }

    pub fn as_str(&self) -> &str
        ensures chars { chars result.now ≡ self.now }
        ensures bytes { result.now ≡ encode_utf8_all self.now }
    {
        self.text.as_str()
    }
}

/// A borrowed text. Contracts see its characters.
#[derive(Clone, Copy, PartialEq, Eq, Hash, Debug)]
pub struct Ident<'a> {
    text: &'a str,
}

impl<'a> Ident<'a> {
    pub fn new(text: &'a str) -> Ident<'a>
        ensures { result.text.now ≡ text.now }
    {
        Ident { text }
    }

    pub fn as_str(self) -> &'a str
        ensures { result.now ≡ self.entry.text.now }
    {
        self.text
    }
}
