//! Elements of a class by their names.
ghost use Rattle.std.specs.Prelude.{◌≡◌, [], option_map, OnOk, OnErr};
ghost use Rattle.std.specs.Map.{lookup};
ghost use Rattle.std.specs.Str.{chars, bytes_eq, IsUtf8};
ghost use Rattle.class_table.specs.Seen.{element_seen};
ghost use Rattle.expression_checks.specs.Predecessors.{element_behind, with_last_element};

use class_table::Element;
use indexmap::IndexMap;
use std::alloc::{AllocError, Global};
use std::marker::Model;

/// Elements by their names, and of those of one name the last. Contracts see the names and what each element is.
#[derive(Drop)]
pub(crate) struct LastByName<'n, 'a> {
    elements: IndexMap<&'a str, &'n Element<'a>>,
}

impl<'n, 'a> Model for LastByName<'n, 'a> {
    ghost use Rattle.std.specs.Prelude.{List, map};
    ghost use Rattle.std.specs.List.{AllByRecursion};
    ghost use Rattle.expression_checks.specs.Entries.{NamedElement, entry_seen, IsSpelled};

    ghost Value = { List NamedElement };

    ghost view = { λ m. map entry_seen m.elements.entries };

    ghost invariant = { λ m. AllByRecursion IsSpelled m.elements.entries };
}

/// A text is UTF-8.
fn spell(text: &str)
    ensures { IsUtf8 text.entry.now }
{}

impl<'n, 'a> LastByName<'n, 'a> {
    /// No element has a name yet.
    pub(crate) fn new(alloc: Global) -> LastByName<'n, 'a>
        ensures { result ≡ [] }
    {
        LastByName {
            elements: IndexMap::new(alloc),
        }
    }

    /// The last element of the name, if one has it.
    #[tactic(auto, using(crate::proofs::SpelledNames::names))]
    pub(crate) fn get(&self, name: &str) -> Option<&'n Element<'a>>
        ensures { option_map element_behind result
            ≡ lookup (bytes_eq (chars name.entry.now)) self.now }
    {
        spell(name);
        self.elements.get(&name).copied()
    }

    /// Adds an element, as the last of its name. After want of memory all is as before.
    #[tactic(auto, using(crate::proofs::SpelledNames::names))]
    pub(crate) fn put(&mut self, element: &'n Element<'a>) -> Result<(), AllocError>
        ensures ok { OnOk result
            (self.new ≡ with_last_element self.old (element_seen element.entry.now)) }
        ensures err { OnErr result (self.new ≡ self.old) }
    {
        let name = element.name.as_str();
        spell(name);
        self.elements.insert(name, element)?;
        Ok(())
    }
}
