//! Import specifiers.
ghost use Rattle.std.specs.Prelude.{◌≡◌, option_map};
ghost use Rattle.std.specs.Str.{chars};
ghost use Rattle.semantic_tree.specs.ChildIter.{shown};
ghost use Rattle.link_model.specs.Imports.{wanted_by};
ghost use Rattle.module_entries.specs.Views.{shown_wanted, shown_import};

use crate::entry_texts::{default_name, source_text, text_or_empty};
use semantic_syntax::NodeId;
use semantic_tree::{AstKind, AstType, Node, Role};

/// What an import asks of a module.
#[derive(Clone, Copy)]
pub enum Wanted<'a> {
    /// The export of a name.
    One(&'a str),
    /// All exports.
    Whole,
}

/// An import specifier, and the statement in which it stands.
#[derive(Clone, Copy)]
pub struct ImportEntry<'a> {
    pub statement: &'a Node,
    pub specifier: &'a Node,
}

/// What a specifier of an import asks for.
fn wanted_by<'a>(node: AstKind<'a>) -> Option<Wanted<'a>>
    ensures { option_map shown_wanted result
        ≡ wanted_by node.entry.node.now.kind node.entry.node.now }
{
    match node.ty() {
        AstType::ImportSpecifier => { Some(Wanted::One(text_or_empty(node.child(Role::Imported)))) }
        AstType::ImportDefaultSpecifier => Some(Wanted::One(default_name())),
        AstType::ImportNamespaceSpecifier => Some(Wanted::Whole),
        _ => None,
    }
}

impl<'a> ImportEntry<'a> {
    /// The import specifier.
    pub fn node(&self) -> NodeId
        ensures { result ≡ (shown_import self.now).node }
    {
        self.specifier.node_id
    }

    /// The name that it binds.
    pub fn local(&self) -> Option<AstKind<'a>>
        ensures { option_map shown result ≡ (shown_import self.now).local }
    {
        AstKind::new(self.specifier).child(Role::Local)
    }

    /// The specifier of the module.
    pub fn source(&self) -> &'a str
        ensures { chars result.now ≡ (shown_import self.now).source }
    {
        source_text(AstKind::new(self.statement))
    }

    /// What is asked of the module.
    pub fn wanted(&self) -> Wanted<'a>
        ensures { shown_wanted result ≡ (shown_import self.now).wanted }
    {
        wanted_by(AstKind::new(self.specifier)).unwrap_or(Wanted::Whole)
    }
}
