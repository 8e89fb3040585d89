//! What each name means among the elements of a class.
ghost use Rattle.std.specs.Prelude.{◌≡◌, ◌<◌, ◌≤◌, [], length, map, IfOk, OnOk, OnErr, is_some};
ghost use Rattle.std.specs.Map.{lookup};
ghost use Rattle.std.specs.Str.{chars, IsUtf8};
ghost use Rattle.class_table.specs.Meanings.{key_eq, with_more, ids_meant, with_meaning, meanings_of, AreIds};
ghost use Rattle.class_table.specs.Seen.{element_seen};

use crate::element::Element;
use crate::element_ids::ElementIds;
use indexmap::IndexMap;
use semantic_syntax::{ElementId, Ident};
use std::alloc::{AllocError, Global};
use std::marker::Model;

/// The elements that a name means, by their numbers.
#[derive(Clone, Copy)]
pub(crate) enum Meaning {
    /// An accessor or a property alone, whatever follows.
    Alone(u32),
    /// A method, whose second half may follow.
    Half(u32),
    /// The first two of the name.
    Both(u32, u32),
}

/// What each name means, as a private or as a public one, so that a name is looked up without a pass over the
/// elements. Contracts see the entries.
#[derive(Drop)]
pub(crate) struct MeantNames<'a> {
    meanings: IndexMap<(&'a str, bool), Meaning>,
}

impl<'a> Model for MeantNames<'a> {
    ghost use Rattle.std.specs.Prelude.{List, map};
    ghost use Rattle.class_table.specs.Meanings.{NameMeaning, entry_seen, IsMeant};
    ghost use Rattle.std.specs.List.{AllByRecursion};

    ghost Value = { List NameMeaning };

    ghost view = { λ m. map entry_seen m.meanings.entries };

    ghost invariant = { λ m. AllByRecursion IsMeant m.meanings.entries };
}

/// A text is UTF-8.
fn spell(text: &str)
    ensures { IsUtf8 text.entry.now }
{}

/// What a name means with one more element of it.
fn with_more(meaning: Option<Meaning>, number: u32, stands_alone: bool) -> Meaning
    ensures { result ≡ with_more meaning number stands_alone }
{
    match meaning {
        None if stands_alone => Meaning::Alone(number),
        None => Meaning::Half(number),
        Some(Meaning::Half(first)) => Meaning::Both(first, number),
        Some(meaning) => meaning,
    }
}

impl<'a> MeantNames<'a> {
    /// No element has a name yet.
    pub(crate) fn new(alloc: Global) -> MeantNames<'a>
        ensures { result ≡ [] }
    {
        MeantNames {
            meanings: IndexMap::new(alloc),
        }
    }

    /// What each name means among the elements.
    pub(crate) fn of(alloc: Global, elements: &[Element<'a>]) -> Result<MeantNames<'a>, AllocError>
        requires { length elements.now ≤ u32.MAX }
        ensures { IfOk result (λ names. names ≡ meanings_of (map element_seen elements.now)) }
    {
        let mut names = MeantNames::new(alloc);
        for (number, element) in elements.iter().enumerate() {
            names.put(number as u32, element)?;
        }
        Ok(names)
    }

    /// What the name means, if some element has it.
    fn meaning(&self, name: &str, is_private: bool) -> Option<Meaning>
        ensures meaning { result ≡ lookup (key_eq (chars name.entry.now, is_private)) self.now }
        ensures within { AreIds (ids_meant result) }
    {
        spell(name);
        self.meanings.get(&(name, is_private)).copied()
    }

    /// Adds an element, whose number is past those of the others. After want of memory all is as before.
    pub(crate) fn put(&mut self, number: u32, element: &Element<'a>) -> Result<(), AllocError>
        requires { number < u32.MAX }
        ensures ok { OnOk result
            (self.new ≡ with_meaning self.old number (element_seen element.now)) }
        ensures err { OnErr result (self.new ≡ self.old) }
    {
        let name = element.name.as_str();
        let meaning = self.meaning(name, element.is_private);
        self.meanings.insert(
            (name, element.is_private),
            with_more(meaning, number, element.stands_alone()),
        )?;
        Ok(())
    }

    /// The elements that the name means, at most two.
    pub(crate) fn ids_meant(
        &self,
        alloc: Global,
        name: Ident<'_>,
        is_private: bool,
    ) -> Result<ElementIds, AllocError>
        ensures { IfOk result (λ ids. ids
            ≡ ids_meant (lookup (key_eq (chars name.entry.text.now, is_private)) self.now)) }
    {
        let mut ids = ElementIds::new(alloc);
        match self.meaning(name.as_str(), is_private) {
            None => {}
            Some(Meaning::Alone(only)) | Some(Meaning::Half(only)) => {
                ids.push(ElementId::new(only))?;
            }
            Some(Meaning::Both(first, second)) => {
                ids.push(ElementId::new(first))?;
                ids.push(ElementId::new(second))?;
            }
        }
        Ok(ids)
    }

    /// Whether some element has the name.
    pub(crate) fn has(&self, name: Ident<'_>, is_private: bool) -> bool
        ensures { result ≡ is_some
            (lookup (key_eq (chars name.entry.text.now, is_private)) self.now) }
    {
        self.meaning(name.as_str(), is_private).is_some()
    }
}
