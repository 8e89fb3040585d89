//! Nodes that export names.
ghost use Rattle.std.specs.Prelude.{◌≡◌, option_map};
ghost use Rattle.std.specs.Str.{chars};
ghost use Rattle.semantic_kinds.specs.declared.role.Role.TheVariants as role;
ghost use Rattle.semantic_tree.specs.ChildIter.{shown};
ghost use Rattle.semantic_tree.specs.Views.{child_of};
ghost use Rattle.link_model.specs.Exports.{default_name};
ghost use Rattle.module_entries.specs.Views.{shown_way, shown_export};

use crate::entry_texts;
use crate::entry_texts::{source_text, text_or_empty};
use semantic_syntax::NodeId;
use semantic_tree::{AstKind, AstType, Node, Role};

/// How a name is exported.
#[derive(Clone, Copy)]
pub enum ExportWay<'a> {
    /// By this specifier without a source.
    Listed(&'a Node),
    /// From another module, told by its specifier, under the second name.
    PassedOn(&'a str, &'a str),
    /// As all that a module exports, told by its specifier.
    Collected(&'a str),
    /// As this declared name.
    Declared(&'a Node),
    /// As the default export, by this statement.
    ByDefault(&'a Node),
}

/// A node that exports a name, and the statement in which it stands, which may be the node itself.
#[derive(Clone, Copy)]
pub struct ExportEntry<'a> {
    pub statement: &'a Node,
    pub exporting: &'a Node,
}

/// The local of a specifier, if it has one.
pub fn listed_local<'a>(specifier: &'a Node) -> Option<AstKind<'a>>
    ensures { option_map shown result ≡ child_of role.Local specifier.now }
{
    AstKind::new(specifier).child(Role::Local)
}

/// The name of the function or class that a statement exports as the default, if it has one.
pub fn default_id<'a>(statement: &'a Node) -> Option<AstKind<'a>>
    ensures { option_map shown result ≡ default_name (child_of role.Declaration statement.now) }
{
    match AstKind::new(statement).child(Role::Declaration) {
        Some(declaration) => match declaration.ty() {
            AstType::Function | AstType::Class => declaration.child(Role::Id),
            _ => None,
        },
        None => None,
    }
}

impl<'a> ExportEntry<'a> {
    /// The node that exports the name.
    pub fn node(&self) -> NodeId
        ensures { result ≡ (shown_export self.now).node }
    {
        self.exporting.node_id
    }

    /// The name that others see.
    pub fn name(&self) -> &'a str
        ensures { chars result.now ≡ (shown_export self.now).name }
    {
        let exporting = AstKind::new(self.exporting);
        match self.statement.kind {
            AstType::ExportDeclaration => exporting.text().as_str(),
            AstType::ExportDefaultDeclaration => entry_texts::default_name(),
            _ => text_or_empty(exporting.child(Role::Exported)),
        }
    }

    /// How the name is exported.
    pub fn way(&self) -> ExportWay<'a>
        ensures { shown_way result ≡ (shown_export self.now).what }
    {
        let exporting = AstKind::new(self.exporting);
        let source = source_text(AstKind::new(self.statement));
        match self.statement.kind {
            AstType::ExportNamedDeclaration => ExportWay::Listed(self.exporting),
            AstType::ExportFromDeclaration => {
                ExportWay::PassedOn(source, text_or_empty(exporting.child(Role::Local)))
            }
            AstType::ExportDeclaration => ExportWay::Declared(self.exporting),
            AstType::ExportDefaultDeclaration => ExportWay::ByDefault(self.exporting),
            _ => ExportWay::Collected(source),
        }
    }
}
