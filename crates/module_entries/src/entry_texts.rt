//! Texts of nodes.
ghost use Rattle.std.specs.Prelude.{◌≡◌, [], codes, option_map};
ghost use Rattle.std.specs.Str.{chars};
ghost use Rattle.semantic_tree.specs.ChildIter.{shown};
ghost use Rattle.link_model.specs.Module.{text_or_empty, source_text};

use semantic_tree::{AstKind, Role};

/// The name of a default export.
#[tactic(auto, using(crate::proofs::AsciiTexts::default_chars))]
pub fn default_name() -> &'static str
    ensures { chars result.now ≡ codes "default" }
{
    "default"
}

/// No text.
#[tactic(auto, using(crate::proofs::AsciiTexts::no_chars))]
fn no_text() -> &'static str
    ensures { chars result.now ≡ [] }
{
    ""
}

/// The text of a node, if there is one.
pub fn text_or_empty<'a>(node: Option<AstKind<'a>>) -> &'a str
    ensures { chars result.now ≡ text_or_empty (option_map shown node.entry) }
{
    match node {
        Some(node) => node.text().as_str(),
        None => no_text(),
    }
}

/// The specifier of the module that a statement names; empty if it names none.
pub fn source_text<'a>(statement: AstKind<'a>) -> &'a str
    ensures { chars result.now ≡ source_text statement.entry.node.now }
{
    text_or_empty(statement.child(Role::Source))
}
