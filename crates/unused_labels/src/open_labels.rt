//! Which open label of a name is the innermost.

ghost use Rattle.std.specs.Prelude.{◌≡◌, ◌-◌, ◌++◌, ◌∷◌, [], List, ℕ, cond, length, take, OnOk, OnErr};
ghost use Rattle.std.specs.Borrow.{Bor};
ghost use Rattle.std.specs.Option.{IsSome};
ghost use Rattle.std.specs.HashMap.{get_by};
ghost use Rattle.std.specs.Str.{chars, bytes_eq, IsUtf8};
ghost use Rattle.unused_labels.specs.OpenNames.{last_place};

use semantic_syntax::Ident;
use std::alloc::{AllocError, Global};
use std::collections::HashMap;
use std::marker::Model;

/// A label whose statement the walk is in.
#[derive(Clone, Copy)]
struct OpenLabel<'a> {
    name: &'a str,
    /// The position of the innermost label around it that has the same name, if there is one.
    outer: Option<usize>,
}

/// The names of the labels around a place, innermost last, of which the innermost of a name is found without a pass
/// over them. Contracts see the names.
#[derive(Drop)]
pub(crate) struct OpenLabels<'a> {
    labels: Vec<OpenLabel<'a>>,
    /// The position of the innermost label of each name.
    innermost: HashMap<&'a str, usize>,
}

impl<'a> Model for OpenLabels<'a> {
    ghost use Rattle.std.specs.Prelude.{List};
    ghost use Rattle.semantic_syntax.specs.Tables.{Name};
    ghost use Rattle.unused_labels.specs.OpenPlaces.{PlacesAreKnown, label_names, nowhere, places_of_map};

    ghost Value = { List Name };

    ghost view = { λ o. label_names o.labels.items };

    ghost invariant = { λ o. PlacesAreKnown nowhere 0 o.labels.items (places_of_map o.innermost.entries) };
}

/// A text is UTF-8.
fn spell(text: &str)
    ensures { IsUtf8 text.entry.now }
{}

impl<'a> OpenLabels<'a> {
    /// No labels.
    pub(crate) fn new(alloc: Global) -> OpenLabels<'a>
        ensures { result ≡ [] }
    {
        OpenLabels {
            labels: Vec::new(alloc),
            innermost: HashMap::new(alloc),
        }
    }

    /// The position of the innermost label of the name.
    pub(crate) fn innermost(&self, name: Ident<'_>) -> Option<usize>
        ensures { result ≡ last_place (chars name.entry.text.now) self.now }
    {
        let name = name.as_str();
        spell(name);
        self.innermost.get(&name).copied()
    }

    /// A label of the name is open, too. After want of memory all is as before.
    pub(crate) fn push(&mut self, name: Ident<'a>) -> Result<(), AllocError>
        ensures ok { OnOk result (self.new ≡ self.old ++ chars name.entry.text.now ∷ []) }
        ensures err { OnErr result (self.new ≡ self.old) }
    {
        let name = name.as_str();
        spell(name);
        self.labels.reserve(1)?;
        let outer = self.innermost.insert(name, self.labels.len())?;
        let _ = self.labels.push(OpenLabel { name, outer });
        Ok(())
    }

    /// The innermost label, if there is one, is open no longer.
    pub(crate) fn pop(&mut self)
        ensures { self.new ≡ take (length self.old - 1) self.old }
    {
        if let Some(label) = self.labels.pop() {
            put_back(&mut self.innermost, label);
        }
    }
}

/// Behind the innermost label of a name, the one around it is the innermost.
fn put_back<'a>(innermost: &mut HashMap<&'a str, usize>, label: OpenLabel<'a>)
    requires { IsSome (get_by (λ k. bytes_eq label.name.now k.now) innermost.old) }
    ensures { (q : Bor (List ℕ))
        → get_by (λ k. bytes_eq q.now k.now) innermost.new
        ≡ cond (bytes_eq label.entry.name.now q.now) label.entry.outer
        (get_by (λ k. bytes_eq q.now k.now) innermost.old) }
{
    match label.outer {
        Some(outer) => {
            if let Some(place) = innermost.get_mut(&label.name) {
                *place = outer;
            }
        }
        None => {
            let _place = innermost.remove(&label.name);
        }
    }
}
