//! One name that a node declares.

ghost use Rattle.std.specs.Prelude.{◌≡◌, false};
ghost use Rattle.semantic_model.specs.Binder.{named_member};
ghost use Rattle.table_building.specs.Named.{naming, named_by};

use node_rules::rows::Row;
use semantic_syntax::{NodeId, Span};
use semantic_tree::AstKind;

/// A name that a node declares.
#[derive(Clone, Copy)]
pub struct Declaration<'a> {
    /// The declaring node.
    pub node: NodeId,
    /// The node of the name.
    pub identifier: NodeId,
    pub name: &'a str,
    pub span: Span,
    pub row: Row,
    /// Whether a function without side effects is declared.
    pub is_pure: bool,
}

impl<'a> Declaration<'a> {
    /// The declaration of a binding identifier by a node.
    pub fn new(
        node: AstKind<'_>,
        identifier: AstKind<'a>,
        row: Row,
        is_pure: bool,
    ) -> Declaration<'a>
        ensures { naming result
            ≡ named_by node.entry.node.now row is_pure identifier.entry.node.now }
    {
        Declaration {
            node: node.node_id(),
            identifier: identifier.node_id(),
            name: identifier.text().as_str(),
            span: identifier.span(),
            row,
            is_pure,
        }
    }

    /// The declaration of an enum member, whose name is the text of a node in its id.
    pub fn of_member(
        member: AstKind<'_>,
        id: AstKind<'_>,
        named: AstKind<'a>,
        row: Row,
    ) -> Declaration<'a>
        ensures { naming result
            ≡ named_by member.entry.node.now row false
            (named_member member.entry.node.now id.entry.node.now named.entry.node.now) }
    {
        Declaration {
            node: member.node_id(),
            identifier: member.node_id(),
            name: named.text().as_str(),
            span: id.span(),
            row,
            is_pure: false,
        }
    }
}
