//! The names that exported declarations bind.

ghost use Rattle.std.specs.Prelude.{◌≡◌, ◌++◌, map, IfOk, OnOk};
ghost use Rattle.semantic_kinds.specs.Kinds.{same_kind};
ghost use Rattle.semantic_model.specs.Names.{bound_names};
ghost use Rattle.semantic_model.specs.Step.{steps};
ghost use Rattle.semantic_model.specs.Exported.{is_default_declaration, exported_names, default_exported_names};
ghost use Rattle.semantic_queries.specs.Given.{exporting, gives, names_exported_by, given_from};

use node_rules::bound_identifiers::bound_identifiers;
use node_rules::rows::is_statement;
use semantic_syntax::NodeId;
use semantic_tree::{AstKind, AstType, Node, Program, Role};
use std::alloc::{AllocError, Global};

/// How a declaration is exported.
#[derive(Clone, Copy, PartialEq, Eq, Debug)]
pub enum Export {
    /// Under its names, as `export let a`.
    Named,
    /// As the default, as `export default function f() {}`.
    Default,
}

impl Export {
    /// Whether a node of the kind is such a statement.
    fn is_statement(self, kind: AstType) -> bool
        ensures { result ≡ same_kind kind (exporting self) }
    {
        match self {
            Export::Named => kind == AstType::ExportDeclaration,
            Export::Default => kind == AstType::ExportDefaultDeclaration,
        }
    }

    /// Whether what such a statement holds declares names outside of itself: a default export may be an expression.
    fn gives(self, declaration: AstKind<'_>) -> bool
        ensures { result ≡ gives self declaration.entry.node.now }
    {
        match self {
            Export::Named => true,
            Export::Default => is_default_declaration(declaration),
        }
    }
}

/// Whether a default export is a declaration: a function or class that is a statement, or an interface.
fn is_default_declaration(declaration: AstKind<'_>) -> bool
    ensures { result ≡ is_default_declaration declaration.entry.node.now }
{
    match declaration.ty() {
        AstType::Function | AstType::Class => is_statement(declaration),
        AstType::TSInterfaceDeclaration => true,
        _ => false,
    }
}

/// Adds the names that a node binds. For want of memory some may be added.
fn push_names(names: &mut Vec<NodeId>, node: AstKind<'_>) -> Result<(), AllocError>
    ensures { OnOk result (names.new.items
        ≡ names.old.items ++ map (λ x. x.node_id) (bound_names node.entry.node.now)) }
{
    let bound = bound_identifiers(*names.allocator(), node)?;
    for name in bound.iter() {
        names.push(name.node_id())?;
    }
    Ok(())
}

/// Adds the names that a node exports, if it is such a statement.
fn push_given(names: &mut Vec<NodeId>, export: Export, node: AstKind<'_>) -> Result<(), AllocError>
    ensures { OnOk result (names.new.items
        ≡ names.old.items ++ names_exported_by export node.entry.node.now) }
{
    if !export.is_statement(node.ty()) {
        return Ok(());
    }
    for declaration in node.children(Role::Declaration) {
        if export.gives(declaration) {
            push_names(names, declaration)?;
        }
    }
    Ok(())
}

/// Adds the names that a node and all below it export.
#[tactic(auto, using(semantic_tree::specs::Falls::below))]
fn push_all_given(names: &mut Vec<NodeId>, export: Export, node: &Node) -> Result<(), AllocError>
    ensures { OnOk result (names.new.items ≡ names.old.items ++ given_from export node.now) }
{
    push_given(names, export, AstKind::new(node))?;
    for (_, child) in node.children.as_slice() {
        push_all_given(names, export, child)?;
    }
    Ok(())
}

/// The binding identifiers that declarations directly under `export` bind, in the order of their statements. The only
/// error is want of memory.
pub fn exported_names(alloc: Global, program: &Program) -> Result<Vec<NodeId>, AllocError>
    ensures { IfOk result (λ names. names.items ≡ exported_names (steps program.now)) }
{
    let mut names = Vec::new(alloc);
    push_all_given(&mut names, Export::Named, program.root().node())?;
    Ok(names)
}

/// The binding identifiers that declarations directly under `export default` bind, in the order of their statements.
/// The only error is want of memory.
pub fn default_exported_names(alloc: Global, program: &Program) -> Result<Vec<NodeId>, AllocError>
    ensures { IfOk result (λ names. names.items ≡ default_exported_names (steps program.now)) }
{
    let mut names = Vec::new(alloc);
    push_all_given(&mut names, Export::Default, program.root().node())?;
    Ok(names)
}
