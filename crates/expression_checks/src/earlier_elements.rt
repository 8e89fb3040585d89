//! The elements of a class that come before one.
ghost use Rattle.std.specs.Prelude.{◌≡◌, [], option_map, if◌then◌else◌, OnOk};
ghost use Rattle.class_table.specs.Seen.{element_seen};
ghost use Rattle.check_model.specs.Elements.{some_or};
ghost use Rattle.expression_checks.specs.Predecessors.{element_behind, sets, earlier_of, and_element, last_in, predecessor_in};

use crate::last_by_name::LastByName;
use class_table::Element;
use semantic_syntax::ElementKind;
use std::alloc::{AllocError, Global};

/// The elements of a class so far, as far as those that follow are compared with them: of each name the last public
/// one, the last private setter, and the last other private one.
#[derive(Drop)]
pub(crate) struct EarlierElements<'n, 'a> {
    pub(crate) public: LastByName<'n, 'a>,
    pub(crate) setters: LastByName<'n, 'a>,
    pub(crate) others: LastByName<'n, 'a>,
}

/// Whether the element is a setter.
fn sets(element: &Element<'_>) -> bool
    ensures { result ≡ sets (element_seen element.now) }
{
    element.kind.intersects(ElementKind::Setter)
}

/// The first element that there is.
fn first_of<'n, 'a>(
    one: Option<&'n Element<'a>>,
    other: Option<&'n Element<'a>>,
) -> Option<&'n Element<'a>>
    ensures { option_map element_behind result
        ≡ some_or (option_map element_behind one.entry) (option_map element_behind other.entry) }
{
    match one {
        Some(found) => Some(found),
        None => other,
    }
}

impl<'n, 'a> EarlierElements<'n, 'a> {
    /// There is no earlier element yet.
    pub(crate) fn new(alloc: Global) -> EarlierElements<'n, 'a>
        ensures { result ≡ earlier_of [] }
    {
        EarlierElements {
            public: LastByName::new(alloc),
            setters: LastByName::new(alloc),
            others: LastByName::new(alloc),
        }
    }

    /// Adds an element, as the last one.
    pub(crate) fn add(&mut self, element: &'n Element<'a>) -> Result<(), AllocError>
        ensures { OnOk result (self.new ≡ and_element self.old (element_seen element.entry.now)) }
    {
        if !element.is_private {
            self.public.put(element)
        } else if sets(element) {
            self.setters.put(element)
        } else {
            self.others.put(element)
        }
    }

    /// The private element of the name that is compared with an element: rather one that sets as that does.
    fn private_predecessor(&self, own: &Element<'_>) -> Option<&'n Element<'a>>
        ensures { let e = element_seen own.now in
            option_map element_behind result
            ≡ (if sets e then some_or (last_in self.now.setters e)
            (last_in self.now.others e) else some_or (last_in self.now.others e)
            (last_in self.now.setters e)) }
    {
        let name = own.name.as_str();
        let setter = self.setters.get(name);
        let other = self.others.get(name);
        if sets(own) {
            first_of(setter, other)
        } else {
            first_of(other, setter)
        }
    }

    /// The element that an element after all of these is compared with.
    pub(crate) fn predecessor(&self, own: &Element<'_>) -> Option<&'n Element<'a>>
        ensures { option_map element_behind result
            ≡ predecessor_in self.now (element_seen own.now) }
    {
        if own.is_private {
            self.private_predecessor(own)
        } else {
            self.public.get(own.name.as_str())
        }
    }
}
