//! One pass over a tree: its references and their owners.
ghost use Rattle.std.specs.Prelude.{◌≡◌, map, OnOk, IfOk};
ghost use Rattle.semantic_model.specs.NodeTable.{node_tables};
ghost use Rattle.semantic_model.specs.Step.{steps};
ghost use Rattle.semantic.specs.Shown.{entries};
ghost use Rattle.name_lint.specs.Uses.{is_named_declaration};
ghost use Rattle.name_lint.specs.Gathered.{nothing_gathered, symbol_at_node, text_of, span_of, owner_inside, gathered_at, gathered_from, HasGathered};

use node_rules::questions::reads;
use scoping::NodeTables;
use semantic_syntax::SymbolId;
use semantic_tree::{AstKind, AstType, Program, Role};
use std::alloc::{AllocError, Global};
use std::marker::Model;

/// The references of a tree, in preorder, with their owners.
#[derive(Drop)]
pub struct TreePass<'a> {
    references: Vec<AstKind<'a>>,
    owners: Vec<Option<SymbolId>>,
}

impl<'a> Model for TreePass<'a> {
    ghost use Rattle.std.specs.Prelude.{map};
    ghost use Rattle.name_lint.specs.Gathered.{Gathered, text_of, span_of};

    ghost Value = { Gathered };

    ghost view = { λ a. record { names = map text_of a.references.items; spans = map span_of a.references.items; owners = a.owners.items } };
}

/// Whether the node is a function or class declaration.
fn is_declaration(node: AstKind<'_>) -> bool
    ensures { result ≡ is_named_declaration node.entry.node.now }
{
    match node.ty() {
        AstType::Function | AstType::Class => reads(node, "declaration"),
        _ => false,
    }
}

/// The owner of what stands in the node, which stands in an owner itself.
fn owner_inside(
    node: AstKind<'_>,
    owner: &Option<SymbolId>,
    tables: &NodeTables,
) -> Option<SymbolId>
    ensures { result ≡ owner_inside (symbol_at_node tables.now) owner.now node.entry.node.now }
{
    if !is_declaration(node) {
        return *owner;
    }
    match node.child(Role::Id) {
        Some(id) => tables.symbol_of(id.node_id()),
        None => *owner,
    }
}

impl<'a> TreePass<'a> {
    /// Nothing is gathered.
    fn new(alloc: Global) -> TreePass<'a>
        ensures { result ≡ nothing_gathered }
    {
        TreePass {
            references: Vec::new(alloc),
            owners: Vec::new(alloc),
        }
    }

    /// The references of a program and their owners, by the symbols that belong to its nodes. The only error is want of
    /// memory.
    pub fn over(
        alloc: Global,
        program: &'a Program,
        tables: &NodeTables,
    ) -> Result<TreePass<'a>, AllocError>
        requires { tables.now.symbols ≡ entries (node_tables (steps program.now)).symbols }
        ensures { IfOk result (HasGathered program.now) }
    {
        let mut pass = TreePass::new(alloc);
        pass.gather(program.root(), &None, tables)?;
        Ok(pass)
    }

    /// The nodes of the references.
    pub fn references(&self) -> &[AstKind<'a>]
        ensures names { map text_of result.now ≡ self.now.names }
        ensures spans { map span_of result.now ≡ self.now.spans }
    {
        self.references.as_slice()
    }

    /// The owner of each reference.
    pub fn owners(&self) -> &[Option<SymbolId>]
        ensures { result.now ≡ self.now.owners }
    {
        self.owners.as_slice()
    }

    /// Adds the node with its owner, if it is a reference.
    fn gather_at(&mut self, node: AstKind<'a>, owner: &Option<SymbolId>) -> Result<(), AllocError>
        ensures { OnOk result (self.new ≡ gathered_at owner.now node.entry.node.now self.old) }
    {
        if node.ty() == AstType::IdentifierReference {
            self.references.push(node)?;
            self.owners.push(*owner)?;
        }
        Ok(())
    }

    /// Gathers from the node, which stands in the owner, and from all below it.
    #[tactic(auto, using(semantic_tree::specs::Falls::below))]
    fn gather(
        &mut self,
        node: AstKind<'a>,
        owner: &Option<SymbolId>,
        tables: &NodeTables,
    ) -> Result<(), AllocError>
        ensures { OnOk result (self.new
            ≡ gathered_from (symbol_at_node tables.now) owner.now node.entry.node.now self.old) }
    {
        self.gather_at(node, owner)?;
        let inside = owner_inside(node, owner, tables);
        for (_, child) in node.node().children.as_slice() {
            self.gather(AstKind::new(child), &inside, tables)?;
        }
        Ok(())
    }
}
