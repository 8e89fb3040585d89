//! The way from the root to the node that a walk visits.

ghost use Rattle.std.specs.Prelude.{◌≡◌, ◌++◌, ◌∷◌, ◌-◌, [], cond, is_some, length, reverse, take, option_map, OnOk, OnErr};
ghost use Rattle.semantic_kinds.specs.declared.kind.AstType.TheVariants as kind_of;
ghost use Rattle.semantic_tree.specs.Views.{is};
ghost use Rattle.node_rules.specs.Seen.{parent_path};
ghost use Rattle.node_store.specs.Entered.{entering, leaving};
ghost use Rattle.node_store.specs.PathOf.{path_of as outward_path, IsInStore};
ghost use Rattle.semantic_tree.specs.BoundNames.{is_simple_parameter_list};
ghost use Rattle.semantic_walk.specs.Listed.{kept_from, list_kept};
ghost use Rattle.node_store.specs.Store.{IsWalked, entered_in};
ghost use Rattle.semantic_walk.specs.Paths.{parent_in, ends_with_list, lists_simple};

use node_store::{Ancestry, AncestryStack, AstNodeStore, AstNodeStoreKind, AstNodes};
use semantic_syntax::ScopeId;
use semantic_tree::{AstKind, AstType};
use std::alloc::{AllocError, Global};
use std::marker::Model;

/// The nodes from the root to the one that is visited, and, if they are kept, all that were entered. Each parameter asks
/// whether its list is simple, so that is found once for a list, when the walk comes to it.
#[derive(Drop)]
pub struct Path<'a> {
    stack: AncestryStack<'a>,
    /// Of each list of parameters on the stack, whether it is simple.
    simple: Vec<bool>,
    /// All nodes that were entered, if they are kept.
    store: AstNodeStore<'a>,
}

impl<'a> Model for Path<'a> {
    ghost use Rattle.std.specs.Coded.{codes};
    ghost use Rattle.semantic_tree.specs.contracts.node.Node as node;
    ghost use Rattle.semantic_syntax.specs.contracts.node_flags.NodeFlags as eight_flags;
    ghost use Rattle.semantic_walk.specs.Paths.{Way, walk_path, IsWay};

    ghost Value = { Way };

    ghost coded = { Prim.hlevel (codes, node.the_row.coded, eight_flags.the_row.coded) };

    ghost view = { walk_path };

    ghost invariant = { IsWay };
}

/// Whether the node is a list of parameters.
#[inline(always)]
fn is_list(kind: AstKind<'_>) -> bool
    ensures { result ≡ is kind_of.FormalParameters kind.entry.node.now }
{
    kind.ty() == AstType::FormalParameters
}

/// Notes of a list of parameters whether it is simple. This stands apart, as few nodes are lists.
#[inline(never)]
fn note_simple(simple: &mut Vec<bool>, list: AstKind<'_>) -> Result<(), AllocError>
    ensures ok { OnOk result (simple.new.items
        ≡ simple.old.items ++ is_simple_parameter_list list.entry.node.now ∷ []) }
    ensures err { OnErr result (simple.new.items ≡ simple.old.items) }
{
    simple.push(list.is_simple_parameter_list())?;
    Ok(())
}

/// Notes of a node whether it is a simple list of parameters, if it is a list.
#[inline(always)]
fn note_list(simple: &mut Vec<bool>, kind: AstKind<'_>) -> Result<(), AllocError>
    ensures ok { OnOk result (simple.new.items
        ≡ simple.old.items ++ lists_simple (kind.entry.node.now ∷ [])) }
    ensures err { OnErr result (simple.new.items ≡ simple.old.items) }
{
    if is_list(kind) {
        note_simple(simple, kind)
    } else {
        Ok(())
    }
}

/// Forgets the last list, if the walk leaves one.
#[inline(always)]
fn forget_list(simple: &mut Vec<bool>, leaves_list: bool)
    ensures { simple.new.items ≡ cond leaves_list
        (take (length simple.old.items - 1) simple.old.items) simple.old.items }
{
    if leaves_list {
        simple.pop();
    }
}

/// Whether the store keeps all nodes that are entered.
#[inline(always)]
fn keeps(store: &AstNodeStore<'_>) -> bool
    ensures { result ≡ is_some (entered_in store.now) }
{
    match &store.kind {
        AstNodeStoreKind::Full(_) => true,
        AstNodeStoreKind::Ancestry(_) => false,
    }
}

/// Enters a node in a store that keeps the nodes. This stands apart, as most walks keep none.
#[inline(never)]
fn enter_kept<'a>(
    store: &mut AstNodeStore<'a>,
    kind: AstKind<'a>,
    scope: ScopeId,
) -> Result<(), AllocError>
    requires { IsWalked store.old }
    ensures entered { OnOk result (entered_in store.new
        ≡ option_map (λ e. entering e kind.entry.node.now scope) (entered_in store.old)) }
    ensures stands { IsWalked store.new }
{
    store.enter(kind, scope)
}

/// Enters a node in the store, if that keeps the nodes that are entered.
#[inline(always)]
fn keep<'a>(
    store: &mut AstNodeStore<'a>,
    kind: AstKind<'a>,
    scope: ScopeId,
) -> Result<(), AllocError>
    requires { IsWalked store.old }
    ensures entered { OnOk result (entered_in store.new
        ≡ option_map (λ e. entering e kind.entry.node.now scope) (entered_in store.old)) }
    ensures stands { IsWalked store.new }
{
    if keeps(store) {
        enter_kept(store, kind, scope)
    } else {
        Ok(())
    }
}

/// Leaves a node in the store, if that keeps the nodes that are entered.
#[inline(always)]
fn leave_kept(store: &mut AstNodeStore<'_>)
    requires { IsWalked store.old }
    ensures left { entered_in store.new ≡ option_map leaving (entered_in store.old) }
    ensures stands { IsWalked store.new }
{
    if keeps(store) {
        store.leave();
    }
}

impl<'a> Path<'a> {
    /// No nodes. All nodes that are entered are kept, or those on the way alone.
    pub fn new(alloc: Global, keeps: bool) -> Path<'a>
        ensures { result ≡ record { nodes = []; entered = kept_from keeps } }
    {
        let mut store = AstNodeStore::new(alloc);
        store.set_build_nodes(keeps);
        Path {
            stack: AncestryStack::new(alloc),
            simple: Vec::new(alloc),
            store,
        }
    }

    /// Makes room for nodes, if all are kept. The way stays, whatever the answer.
    pub fn reserve(&mut self, count: u32) -> Result<(), AllocError>
        ensures { self.new ≡ self.old }
    {
        self.store.reserve(count as usize)
    }

    /// Comes to a node, which stands in the scope.
    #[inline(always)]
    pub fn push(&mut self, kind: AstKind<'a>, scope: ScopeId) -> Result<(), AllocError>
        ensures { OnOk result (self.new ≡ record {
          nodes = self.old.nodes ++ kind.entry.node.now ∷ [];
          entered = option_map (λ e. entering e kind.entry.node.now scope) self.old.entered;
        }) }
    {
        keep(&mut self.store, kind, scope)?;
        self.stack.push(kind)?;
        if let Err(error) = note_list(&mut self.simple, kind) {
            self.stack.pop();
            return Err(error);
        }
        Ok(())
    }

    /// Leaves the last node.
    #[inline(always)]
    pub fn pop(&mut self)
        ensures { self.new ≡ record {
          nodes = take (length self.old.nodes - 1) self.old.nodes;
          entered = option_map leaving self.old.entered;
        } }
    {
        let leaves_list = self.is_at_list();
        forget_list(&mut self.simple, leaves_list);
        self.stack.pop();
        leave_kept(&mut self.store);
    }

    /// Whether the last node is a list of parameters.
    #[inline(always)]
    fn is_at_list(&self) -> bool
        ensures { result ≡ ends_with_list self.now.nodes }
    {
        match self.stack.current() {
            Some(kind) => is_list(kind),
            None => false,
        }
    }

    /// The parent of the last node.
    pub fn parent(&self) -> Option<AstKind<'a>>
        ensures { parent_path result ≡ parent_in self.now.nodes }
    {
        self.stack.parent()
    }

    /// Whether all nodes that are entered are kept, and not those on the way alone.
    #[inline(always)]
    pub fn keeps_nodes(&self) -> bool
        ensures { result ≡ is_some self.now.entered }
    {
        keeps(&self.store)
    }

    /// Whether that parent, the list, is simple.
    pub fn is_in_simple(&self, list: AstKind<'a>) -> bool
        ensures { list.entry.node.now ∷ [] ≡ parent_in self.now.nodes
            → result ≡ is_simple_parameter_list list.entry.node.now }
    {
        match self.simple.last() {
            Some(is_simple) if is_list(list) && !self.is_at_list() => *is_simple,
            _ => list.is_simple_parameter_list(),
        }
    }

    /// The path from the last node outward.
    pub fn ancestry(&self) -> Ancestry<'a, '_>
        ensures path { outward_path result ≡ reverse self.now.nodes }
        ensures store { IsInStore result }
    {
        Ancestry::Stack(&self.stack)
    }

    /// The nodes that were entered, if all are kept, and else none.
    pub fn into_nodes(self) -> AstNodes<'a>
        ensures { result ≡ list_kept self.entry.entered }
    {
        self.store.into_nodes()
    }
}
