//! What each kind of node is made of, by the headings of the shape table.

ghost use Rattle.std.specs.Prelude.{◌≡◌};
ghost use Rattle.semantic_kinds.specs.Parts.{parts};

mod declarations;
mod expressions;
mod modules;
mod statements;
mod types;
mod typescript;

use crate::class::Class;
use crate::kind::AstType;
use crate::role::Role;

/// How many children a part has.
#[derive(Clone, Copy, PartialEq, Eq, Debug)]
pub enum Count {
    One,
    AtMostOne,
    AnyNumber,
    AtLeastOne,
}

/// The children of one role: how many there are, and what they may be.
#[derive(Clone, Copy)]
pub struct Part {
    pub role: Role,
    pub count: Count,
    pub class: Class,
}

/// The parts of a node of a kind, in visiting order.
pub fn parts(kind: AstType) -> &'static [Part]
    ensures { result.now ≡ parts kind }
{
    statements::parts(kind)
}
