//! The elements of classes.
ghost use Rattle.std.specs.Prelude.{◌≡◌};
ghost use Rattle.semantic_tree.specs.NameView.{name_shown};
ghost use Rattle.semantic_model.specs.Element.{stands_alone};
ghost use Rattle.class_table.specs.Seen.{element_seen};

use semantic_syntax::{ElementKind, Span};
use semantic_tree::StaticPropertyName;

/// An element of a class: a method, a property or an accessor.
#[derive(Drop)]
pub struct Element<'a> {
    /// The name of its key (ECMAScript 8.6.5, PropName).
    pub name: StaticPropertyName<'a>,
    /// Where its key stands in the source, in bytes.
    pub span: Span,
    /// Whether its key is a private identifier (ECMAScript 15.7.1, PrivateBoundIdentifiers).
    pub is_private: bool,
    /// Whether it is marked `static`.
    pub is_static: bool,
    pub kind: ElementKind,
}

impl<'a> Element<'a> {
    /// The element of a class with these parts.
    pub fn new(
        name: StaticPropertyName<'a>,
        span: Span,
        is_static: bool,
        is_private: bool,
        kind: ElementKind,
    ) -> Element<'a>
        ensures { element_seen result
            ≡ record {
              name = name_shown name.entry;
              span = span;
              is_static = is_static;
              is_private = is_private;
              kind = kind;
            } }
    {
        Element {
            name,
            span,
            is_private,
            is_static,
            kind,
        }
    }

    /// Whether its name means it alone: an accessor or a property has no second half.
    pub(crate) fn stands_alone(&self) -> bool
        ensures { result ≡ stands_alone (element_seen self.now) }
    {
        self.kind
            .intersects(ElementKind::Accessor.union(ElementKind::Property))
    }
}
