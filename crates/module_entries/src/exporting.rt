//! The exports of statements.
ghost use Rattle.std.specs.Prelude.{◌≡◌, ◌∷◌, [], map, cond, OnOk};
ghost use Rattle.std.specs.Option.{is_some};
ghost use Rattle.semantic_kinds.specs.declared.role.Role.TheVariants as role;
ghost use Rattle.semantic_model.specs.Names.{bound_names};
ghost use Rattle.semantic_tree.specs.Views.{child_of, children_of};
ghost use Rattle.semantic_model.specs.Exported.{declared_names};
ghost use Rattle.link_model.specs.Exports.{exports_of_node};
ghost use Rattle.module_entries.specs.Entries.{seen, with_exports, exports_in};
ghost use Rattle.module_entries.specs.Views.{export_of};

use crate::entries::ModuleEntries;
use crate::export::ExportEntry;
use node_rules::bound_identifiers::bound_identifiers;
use semantic_tree::{AstKind, AstType, Node, Role};
use std::alloc::AllocError;

impl<'a> ModuleEntries<'a> {
    /// Adds the export of a node that stands in this statement.
    fn add_export(&mut self, statement: &'a Node, exporting: &'a Node) -> Result<(), AllocError>
        ensures { OnOk result (seen self.new
            ≡ with_exports (seen self.old) (export_of statement.now exporting.now ∷ [])) }
    {
        self.exports.push(ExportEntry {
            statement,
            exporting,
        })?;
        Ok(())
    }

    /// Adds the exports by specifiers.
    fn gather_specifiers(&mut self, statement: &'a Node) -> Result<(), AllocError>
        ensures { OnOk result (seen self.new
            ≡ with_exports (seen self.old)
            (map (export_of statement.now) (children_of role.Specifiers statement.now.children))) }
    {
        for specifier in AstKind::new(statement).children(Role::Specifiers) {
            self.add_export(statement, specifier.node())?;
        }
        Ok(())
    }

    /// Adds the exports of the names that a node binds.
    fn gather_bound(&mut self, statement: &'a Node, node: AstKind<'a>) -> Result<(), AllocError>
        ensures { OnOk result (seen self.new
            ≡ with_exports (seen self.old)
            (map (export_of statement.now) (bound_names node.entry.node.now))) }
    {
        let names = bound_identifiers(*self.exports.allocator(), node)?;
        for name in names.iter() {
            self.add_export(statement, name.node())?;
        }
        Ok(())
    }

    /// Adds the exports of the names that an exported declaration binds.
    fn gather_declared(&mut self, statement: &'a Node) -> Result<(), AllocError>
        ensures { OnOk result (seen self.new
            ≡ with_exports (seen self.old)
            (map (export_of statement.now) (declared_names statement.now))) }
    {
        for declaration in AstKind::new(statement).children(Role::Declaration) {
            self.gather_bound(statement, declaration)?;
        }
        Ok(())
    }

    /// Adds the export of all that a module exports, if it gets a name.
    fn gather_collected(&mut self, statement: &'a Node) -> Result<(), AllocError>
        ensures { OnOk result (seen self.new
            ≡ with_exports (seen self.old)
            (cond (is_some (child_of role.Exported statement.now))
            (export_of statement.now statement.now ∷ []) [])) }
    {
        if AstKind::new(statement).child(Role::Exported).is_some() {
            self.add_export(statement, statement)
        } else {
            Ok(())
        }
    }

    /// Adds the exports of a statement.
    fn gather_statement(&mut self, statement: &'a Node) -> Result<(), AllocError>
        ensures { OnOk result (seen self.new
            ≡ with_exports (seen self.old) (exports_of_node statement.now)) }
    {
        match statement.kind {
            AstType::ExportNamedDeclaration | AstType::ExportFromDeclaration => {
                self.gather_specifiers(statement)
            }
            AstType::ExportDeclaration => self.gather_declared(statement),
            AstType::ExportDefaultDeclaration => self.add_export(statement, statement),
            AstType::ExportAllDeclaration => self.gather_collected(statement),
            _ => Ok(()),
        }
    }

    /// Adds the exports of the statements of a module.
    pub fn gather_exports(&mut self, root: &'a Node) -> Result<(), AllocError>
        ensures { OnOk result (seen self.new ≡ with_exports (seen self.old) (exports_in root.now)) }
    {
        for statement in AstKind::new(root).children(Role::Body) {
            self.gather_statement(statement.node())?;
        }
        Ok(())
    }
}
