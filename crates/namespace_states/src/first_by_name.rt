//! The statements of a list by the names that they declare.

ghost use Rattle.std.specs.Prelude.{◌≡◌, [], option_map, IfOk, OnOk};
ghost use Rattle.std.specs.Map.{lookup};
ghost use Rattle.std.specs.Str.{chars, bytes_eq, IsUtf8};
ghost use Rattle.semantic_tree.specs.ChildIter.{shown};
ghost use Rattle.semantic_model.specs.Names.{bound_names};
ghost use Rattle.semantic_model.specs.Namespace.{exported, statements};
ghost use Rattle.namespace_states.specs.FirstNames.{with_first, with_first_names, with_statements};

use indexmap::IndexMap;
use node_rules::bound_identifiers::bound_identifiers;
use node_rules::declaring::exported;
use semantic_tree::{AstKind, Role};
use std::alloc::{AllocError, Global};
use std::marker::Model;

/// The statements of a list by the names that they declare, and of those of one name the first. Contracts see the
/// names in order, each with its statement.
#[derive(Drop)]
pub(crate) struct FirstByName<'a> {
    statements: IndexMap<&'a str, AstKind<'a>>,
}

impl<'a> Model for FirstByName<'a> {
    ghost use Rattle.std.specs.Prelude.{List, map};
    ghost use Rattle.std.specs.Coded.{codes};
    ghost use Rattle.std.specs.List.{AllByRecursion};
    ghost use Rattle.semantic_tree.specs.contracts.node.Node as node;
    ghost use Rattle.namespace_states.specs.FirstNames.{NamedStatement};
    ghost use Rattle.namespace_states.specs.Entries.{entry_shown, IsSpelled};

    ghost Value = { List NamedStatement };

    ghost coded = { Prim.hlevel (codes, node.the_row.coded) };

    ghost view = { λ m. map entry_shown m.statements.entries };

    ghost invariant = { λ m. AllByRecursion IsSpelled m.statements.entries };
}

/// A text is UTF-8.
fn spell(text: &str)
    ensures { IsUtf8 text.entry.now }
{}

impl<'a> FirstByName<'a> {
    /// No statements.
    fn new(alloc: Global) -> FirstByName<'a>
        ensures { result ≡ [] }
    {
        FirstByName {
            statements: IndexMap::new(alloc),
        }
    }

    /// The first statement that declares the name.
    #[tactic(auto, using(crate::proofs::SpelledNames::names))]
    pub(crate) fn get(&self, name: &str) -> Option<AstKind<'a>>
        ensures { option_map shown result ≡ lookup (bytes_eq (chars name.entry.now)) self.now }
    {
        spell(name);
        self.statements.get(&name).copied()
    }

    /// Adds a statement that declares the name, unless one is there.
    #[tactic(auto, using(crate::proofs::SpelledNames::names))]
    fn put(&mut self, name: &'a str, statement: AstKind<'a>) -> Result<(), AllocError>
        ensures { OnOk result (self.new
            ≡ with_first self.old (chars name.now, statement.entry.node.now)) }
    {
        spell(name);
        if !self.statements.contains_key(&name) {
            self.statements.insert(name, statement)?;
        }
        Ok(())
    }

    /// Adds a statement that declares the names which the node binds.
    fn put_names(
        &mut self,
        alloc: Global,
        kind: AstKind<'a>,
        statement: AstKind<'a>,
    ) -> Result<(), AllocError>
        ensures { OnOk result (self.new
            ≡ with_first_names self.old statement.entry.node.now
            (bound_names kind.entry.node.now)) }
    {
        let names = bound_identifiers(alloc, kind)?;
        for name in names.iter() {
            self.put(name.text().as_str(), statement)?;
        }
        Ok(())
    }

    /// The statements of a block.
    pub(crate) fn of(alloc: Global, block: AstKind<'a>) -> Result<FirstByName<'a>, AllocError>
        ensures { IfOk result (λ made. made
            ≡ with_statements [] (statements block.entry.node.now)) }
    {
        let mut made = FirstByName::new(alloc);
        for statement in block.children(Role::Body) {
            made.put_names(alloc, exported(statement), statement)?;
        }
        Ok(made)
    }
}
