//! A view of a node, which is copied freely.

ghost use Rattle.std.specs.Prelude.{◌≡◌};
ghost use Rattle.std.specs.Option.{option_map};
ghost use Rattle.std.specs.Iterator.{YieldsFirstBy, item_count};
ghost use Rattle.semantic_tree.specs.ChildIter.{left_of, shown};
ghost use Rattle.std.specs.Str.{chars};
ghost use Rattle.semantic_kinds.specs.MarkSets.{has_mark};
ghost use Rattle.semantic_tree.specs.Views.{all_in, child_of};

use crate::node::Node;
use semantic_kinds::{AstType, Mark, Role};
use semantic_syntax::{Ident, NodeId, Span};

/// A view of a node.
#[derive(Clone, Copy)]
pub struct AstKind<'a> {
    pub node: &'a Node,
}

impl<'a> AstKind<'a> {
    /// A view of the node.
    pub fn new(node: &'a Node) -> AstKind<'a>
        ensures { result.node.now ≡ node.now }
    {
        AstKind { node }
    }

    /// The kind of the node, such as `CallExpression`.
    pub fn ty(self) -> AstType
        ensures { result ≡ self.entry.node.now.kind }
    {
        self.node.kind
    }

    /// Where the node stands in the source, in bytes.
    pub fn span(self) -> Span
        ensures { result ≡ self.entry.node.now.span }
    {
        self.node.span
    }

    /// The number of the node in preorder, from 0.
    pub fn node_id(self) -> NodeId
        ensures { result ≡ self.entry.node.now.node_id }
    {
        self.node.node_id
    }

    /// What the kind tells by a text: a name, an operator, a literal's value; else it is empty.
    pub fn text(self) -> Ident<'a>
        ensures { chars result.text.now ≡ self.entry.node.now.text }
    {
        Ident::new(self.node.text.as_str())
    }

    /// Whether the node has the mark.
    pub fn has_mark(self, m: Mark) -> bool
        ensures { result ≡ has_mark self.entry.node.now.marks m }
    {
        self.node.marks.has(m)
    }

    /// The node itself, with its marks, and its children in order with their roles.
    pub fn node(self) -> &'a Node
        ensures { result.now ≡ self.entry.node.now }
    {
        self.node
    }

    /// The children in a role, in visiting order.
    pub fn children(self, role: Role) -> ChildIter<'a>
        ensures { left_of result ≡ all_in role self.entry.node.now }
    {
        ChildIter {
            left: self.node.children.as_slice(),
            role,
        }
    }

    /// The first child in a role, if there is one.
    pub fn child(self, role: Role) -> Option<AstKind<'a>>
        ensures { option_map shown result ≡ child_of role self.entry.node.now }
    {
        self.children(role).next()
    }
}

/// The children of a node in one role.
#[derive(Clone, Copy)]
pub struct ChildIter<'a> {
    left: &'a [(Role, Node)],
    role: Role,
}

impl<'a> Iterator for ChildIter<'a> {
    type Item = AstKind<'a>;

    ghost next_gives = { YieldsFirstBy shown left_of };

    ghost remaining = { item_count left_of };

    fn next(&mut self) -> Option<AstKind<'a>> {
        while let Some(((role, node), rest)) = self.left.split_first() {
            self.left = rest;
            if *role == self.role {
                return Some(AstKind::new(node));
            }
        }
        None
    }
}
