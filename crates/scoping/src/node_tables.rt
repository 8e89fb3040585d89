//! What belongs to each node.
ghost use Rattle.std.specs.Prelude.{◌≡◌, [], nat_eq, OnOk, OnErr};
ghost use Rattle.std.specs.List.{IsDistinct};
ghost use Rattle.std.specs.Map.{keys_of, lookup};
ghost use Rattle.indexmap.specs.IndexMap.{insert_entry};

use scoping_rows::node_map::NodeMap;
use semantic_syntax::{NodeId, ReferenceId, ScopeId, SymbolId};
use std::alloc::{AllocError, Global};
use std::marker::Model;

/// Which scope a node opens, which symbol a binding identifier or enum member declares, and which reference an
/// identifier reference is. Any node may have an entry; room is taken for the entries alone.
#[derive(Drop)]
pub struct NodeTables {
    scopes: NodeMap<ScopeId>,
    symbols: NodeMap<SymbolId>,
    references: NodeMap<ReferenceId>,
}

impl Model for NodeTables {
    ghost use Rattle.semantic_syntax.specs.NodeEntries.{NodeEntries};

    ghost Value = { NodeEntries };

    ghost view = { λ t. record { scopes = t.scopes; symbols = t.symbols; references = t.references } };
}

impl NodeTables {
    /// Tables without entries.
    pub fn new(alloc: Global) -> NodeTables
        ensures { result ≡ record { scopes = []; symbols = []; references = [] } }
    {
        NodeTables {
            scopes: NodeMap::new(alloc),
            symbols: NodeMap::new(alloc),
            references: NodeMap::new(alloc),
        }
    }

    /// No node has two scopes, symbols or references.
    pub fn attest(&self)
        ensures scopes { IsDistinct nat_eq (keys_of self.now.scopes) }
        ensures symbols { IsDistinct nat_eq (keys_of self.now.symbols) }
        ensures references { IsDistinct nat_eq (keys_of self.now.references) }
    {
        self.scopes.attest();
        self.symbols.attest();
        self.references.attest();
    }

    /// Makes room for so many more nodes that open a scope, declare a symbol, or are a reference. All stays, whatever the
    /// answer.
    pub fn reserve(
        &mut self,
        scopes: usize,
        symbols: usize,
        references: usize,
    ) -> Result<(), AllocError>
        ensures { self.new ≡ self.old }
    {
        self.scopes.reserve(scopes)?;
        self.symbols.reserve(symbols)?;
        self.references.reserve(references)
    }

    /// The scope that the node opens, if any.
    pub fn scope_of(&self, node: NodeId) -> Option<ScopeId>
        ensures { result ≡ lookup (nat_eq node) self.now.scopes }
    {
        self.scopes.get(node)
    }

    /// The symbol that the node declares, if any.
    pub fn symbol_of(&self, node: NodeId) -> Option<SymbolId>
        ensures { result ≡ lookup (nat_eq node) self.now.symbols }
    {
        self.symbols.get(node)
    }

    /// The reference that the node is, if any.
    pub fn reference_of(&self, node: NodeId) -> Option<ReferenceId>
        ensures { result ≡ lookup (nat_eq node) self.now.references }
    {
        self.references.get(node)
    }

    /// Notes the scope that the node opens.
    pub fn set_scope(&mut self, node: NodeId, scope: ScopeId) -> Result<(), AllocError>
        ensures ok { OnOk result
            (self.new
            ≡ record self.old { scopes = insert_entry nat_eq self.old.scopes node scope }) }
        ensures err { OnErr result (self.new ≡ self.old) }
    {
        self.scopes.insert(node, scope)
    }

    /// Notes the symbol that the node declares.
    pub fn set_symbol(&mut self, node: NodeId, symbol: SymbolId) -> Result<(), AllocError>
        ensures ok { OnOk result
            (self.new
            ≡ record self.old { symbols = insert_entry nat_eq self.old.symbols node symbol }) }
        ensures err { OnErr result (self.new ≡ self.old) }
    {
        self.symbols.insert(node, symbol)
    }

    /// Notes the reference that the node is.
    pub fn set_reference(&mut self, node: NodeId, reference: ReferenceId) -> Result<(), AllocError>
        ensures ok { OnOk result
            (self.new
            ≡ record self.old {
              references = insert_entry nat_eq self.old.references node reference;
            }) }
        ensures err { OnErr result (self.new ≡ self.old) }
    {
        self.references.insert(node, reference)
    }
}
