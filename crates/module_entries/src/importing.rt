//! One pass over a tree: its import specifiers and star exports.
ghost use Rattle.std.specs.Prelude.{◌≡◌, ◌<◌, Some, None, cond, OnOk};
ghost use Rattle.link_model.specs.Exports.{is_star};
ghost use Rattle.link_model.specs.Imports.{import_at};
ghost use Rattle.module_entries.specs.Entries.{seen, is_specifier, with_import, with_star, with_below, entered_below};

use crate::entries::ModuleEntries;
use crate::import::ImportEntry;
use semantic_tree::{AstKind, AstType, Node, Role};
use std::alloc::AllocError;

/// Whether the node is a specifier of an import.
fn is_specifier(node: &Node) -> bool
    ensures { result ≡ is_specifier node.now }
{
    matches!(
        node.kind,
        AstType::ImportSpecifier
            | AstType::ImportDefaultSpecifier
            | AstType::ImportNamespaceSpecifier
    )
}

/// Whether a node passes on all names of a module.
fn is_star(node: AstKind<'_>) -> bool
    ensures { result ≡ is_star node.entry.node.now }
{
    node.ty() == AstType::ExportAllDeclaration && node.child(Role::Exported).is_none()
}

impl<'a> ModuleEntries<'a> {
    /// Adds the import that a node is, a child of this parent, if it is one.
    fn gather_import(&mut self, parent: &'a Node, node: &'a Node) -> Result<(), AllocError>
        ensures { OnOk result (seen self.new
            ≡ with_import (import_at (record { parent = parent.now; node = node.now }))
            (seen self.old)) }
    {
        if is_specifier(node) {
            self.imports.push(ImportEntry {
                statement: parent,
                specifier: node,
            })?;
        }
        Ok(())
    }

    /// Adds a node, if it is a star export.
    fn gather_star(&mut self, node: &'a Node) -> Result<(), AllocError>
        ensures { OnOk result (seen self.new
            ≡ with_star (cond (is_star node.now) (Some node.now) None) (seen self.old)) }
    {
        let star = AstKind::new(node);
        if is_star(star) {
            self.stars.push(star)?;
        }
        Ok(())
    }

    /// Adds what a node is, a child of this parent.
    fn gather_at(&mut self, parent: &'a Node, node: &'a Node) -> Result<(), AllocError>
        ensures { OnOk result (seen self.new
            ≡ with_below (record { parent = parent.now; node = node.now }) (seen self.old)) }
    {
        self.gather_import(parent, node)?;
        self.gather_star(node)
    }

    /// Adds the imports and star exports below a node.
    #[tactic(auto, using(semantic_tree::specs::Falls::below))]
    pub fn gather_below(&mut self, parent: &'a Node) -> Result<(), AllocError>
        ensures { OnOk result (seen self.new
            ≡ entered_below parent.now parent.now.children (seen self.old)) }
    {
        for (_, child) in parent.children.as_slice() {
            self.gather_at(parent, child)?;
            self.gather_below(child)?;
        }
        Ok(())
    }
}
