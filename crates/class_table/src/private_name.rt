//! The uses of private names (ECMAScript 15.7.1, AllPrivateIdentifiersValid).
ghost use Rattle.std.specs.Prelude.{◌≡◌};
ghost use Rattle.std.specs.Str.{chars};
ghost use Rattle.class_table.specs.Seen.{use_seen};

use crate::element_ids::ElementIds;
use semantic_syntax::{Ident, NodeId, Span};

/// A use of a private name, with the elements of its class that it may mean.
#[derive(Drop)]
pub struct PrivateIdentifierReference<'a> {
    /// The private identifier.
    pub id: NodeId,
    /// The name without its `#`.
    pub name: Ident<'a>,
    /// Where it stands in the source, in bytes.
    pub span: Span,
    pub element_ids: ElementIds,
}

impl<'a> PrivateIdentifierReference<'a> {
    /// The use of a private name with these parts.
    pub fn new(
        id: NodeId,
        name: Ident<'a>,
        span: Span,
        element_ids: ElementIds,
    ) -> PrivateIdentifierReference<'a>
        ensures { use_seen result
            ≡ record {
              id = id;
              name = chars name.entry.text.now;
              span = span;
              element_ids = element_ids;
            } }
    {
        PrivateIdentifierReference {
            id,
            name,
            span,
            element_ids,
        }
    }
}
