//! The names of keys.

ghost use Rattle.std.specs.Prelude.{◌≡◌};
ghost use Rattle.std.specs.Str.{chars};
ghost use Rattle.std.specs.Option.{option_map};
ghost use Rattle.semantic_tree.specs.Nodes.{first_of};
ghost use Rattle.semantic_tree.specs.Views.{all_in};
ghost use Rattle.semantic_tree.specs.KeyNames.{whole_template, static_name, key_name};
ghost use Rattle.semantic_tree.specs.NameView.{name_shown};

use crate::view::AstKind;
use semantic_kinds::{AstType, Role};

/// The name of a key, as its text stands in the tree.
#[derive(Clone, Copy)]
pub struct StaticPropertyName<'a> {
    text: &'a str,
}

impl<'a> StaticPropertyName<'a> {
    /// The name as a text that lives as long as the tree.
    pub fn as_str(self) -> &'a str
        ensures { result.now ≡ self.entry.text.now }
    {
        self.text
    }
}

impl<'a> AstKind<'a> {
    /// The text of the node as a name.
    fn text_name(self) -> StaticPropertyName<'a>
        ensures { name_shown result ≡ self.entry.node.now.text }
    {
        StaticPropertyName {
            text: self.node().text.as_str(),
        }
    }

    /// The text of a template's only piece, if it has no expressions.
    fn template_name(self) -> Option<StaticPropertyName<'a>>
        ensures { option_map name_shown result
            ≡ whole_template (all_in Role.Quasis self.entry.node.now)
            (all_in Role.Expressions self.entry.node.now) }
    {
        match self.child(Role::Expressions) {
            Some(_) => None,
            None => match self.child(Role::Quasis) {
                Some(quasi) => Some(quasi.text_name()),
                None => None,
            },
        }
    }

    /// The name that a key has whatever code runs: the text of an identifier name, a literal or a
    /// template without expressions, `null` for null. A private identifier has none.
    pub fn static_name(self) -> Option<StaticPropertyName<'a>>
        ensures { option_map name_shown result ≡ static_name self.entry.node.now }
    {
        match self.ty() {
            AstType::IdentifierName
            | AstType::StringLiteral
            | AstType::NumericLiteral
            | AstType::BigIntLiteral
            | AstType::RegExpLiteral => Some(self.text_name()),
            AstType::NullLiteral => Some(StaticPropertyName { text: "null" }),
            AstType::TemplateLiteral => self.template_name(),
            _ => None,
        }
    }

    /// The text of a private identifier, or the static name of another key.
    pub fn name(self) -> Option<StaticPropertyName<'a>>
        ensures { option_map name_shown result ≡ key_name self.entry.node.now }
    {
        match self.ty() {
            AstType::PrivateIdentifier => Some(self.text_name()),
            _ => self.static_name(),
        }
    }
}
