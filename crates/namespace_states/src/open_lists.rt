//! The statement lists around a node.

ghost use Rattle.std.specs.Prelude.{◌≡◌, [], ◌∷◌, drop, option_map, OnOk};
ghost use Rattle.std.specs.Str.{chars};
ghost use Rattle.semantic_tree.specs.ChildIter.{shown};
ghost use Rattle.semantic_model.specs.Namespace.{statements, target_of};
ghost use Rattle.std.specs.List.{AllByRecursion};
ghost use Rattle.namespace_states.specs.OpenBlocks.{node_of, chain_of, HasNames};

use crate::first_by_name::FirstByName;
use semantic_syntax::Ident;
use semantic_tree::AstKind;
use std::alloc::{AllocError, Global};
use std::marker::Model;

/// A block of statements, with the first that declares each name.
#[derive(Drop)]
pub(crate) struct OpenList<'a> {
    pub block: AstKind<'a>,
    pub names: FirstByName<'a>,
}

/// The statement lists around a node, the outermost first. Contracts see the statements of each, from inner to outer.
#[derive(Drop)]
pub(crate) struct OpenLists<'a> {
    alloc: Global,
    lists: Vec<OpenList<'a>>,
}

impl<'a> Model for OpenLists<'a> {
    ghost use Rattle.std.specs.Prelude.{List};
    ghost use Rattle.std.specs.List.{AllByRecursion};
    ghost use Rattle.std.specs.Coded.{codes};
    ghost use Rattle.semantic_tree.specs.declared.node.Node.{Node};
    ghost use Rattle.semantic_tree.specs.contracts.node.Node as node;
    ghost use Rattle.namespace_states.specs.OpenBlocks.{chain_of, HasNames};

    ghost Value = { List (List Node) };

    ghost coded = { Prim.hlevel (codes, node.the_row.coded) };

    ghost view = { λ t. chain_of t.lists.items };

    ghost invariant = { λ t. AllByRecursion HasNames t.lists.items };
}

/// The statement that declares the name in the innermost of these lists, the last, that has one.
fn target_in<'a>(lists: &[OpenList<'a>], name: Ident<'_>) -> Option<AstKind<'a>>
    requires { AllByRecursion HasNames lists.now }
    ensures { option_map shown result
        ≡ option_map node_of (target_of (chars name.entry.text.now) (chain_of lists.entry.now)) }
{
    let mut left = lists.len();
    while left > 0 {
        left -= 1;
        let found = lists[left].names.get(name.as_str());
        if found.is_some() {
            return found;
        }
    }
    None
}

#[tactic(auto, using(crate::proofs::Opening::opened))]
impl<'a> OpenLists<'a> {
    /// No lists.
    pub(crate) fn new(alloc: Global) -> OpenLists<'a>
        ensures { result ≡ [] }
    {
        OpenLists {
            alloc,
            lists: Vec::new(alloc),
        }
    }

    /// Goes into a block.
    pub(crate) fn open(&mut self, block: AstKind<'a>) -> Result<(), AllocError>
        ensures { OnOk result (self.new ≡ statements block.entry.node.now ∷ self.old) }
    {
        let names = FirstByName::of(self.alloc, block)?;
        self.lists.push(OpenList { block, names })?;
        Ok(())
    }

    /// Goes out of the innermost block.
    pub(crate) fn close(&mut self)
        ensures { self.new ≡ drop 1 self.old }
    {
        self.lists.pop();
    }

    /// The statement that declares the name in the innermost list that has one.
    pub(crate) fn target(&self, name: Ident<'_>) -> Option<AstKind<'a>>
        ensures { option_map shown result
            ≡ option_map node_of (target_of (chars name.entry.text.now) self.now) }
    {
        target_in(self.lists.as_slice(), name)
    }
}
