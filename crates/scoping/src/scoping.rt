//! The tables of scopes, symbols, bindings and references.
ghost use Rattle.std.specs.Prelude.{◌≡◌, ◌<◌, [], length};
ghost use Rattle.std.specs.BTreeSet.{insert_key};
ghost use Rattle.std.specs.Ordering.{nat_cmp};
ghost use Rattle.std.specs.Prelude.{OnOk, OnErr};

mod bound;
mod clones;
mod deletions;
mod free;
mod loans;
mod moves;
mod parents;
mod references;
mod renames;
mod room;
mod rows;
mod scopes;
mod symbols;
mod told;

use room::reserve_rows;
use scoping_rows::binding_table::BindingTable;
use scoping_rows::free_table::FreeTable;
use scoping_rows::name_table::NameTable;
use scoping_rows::symbol_row::SymbolRow;
use scoping_rows::use_list::UseList;
use semantic_syntax::{NodeId, Reference, ScopeFlags, ScopeId, SymbolId};
use std::alloc::{AllocError, Global};
use std::collections::BTreeSet;
use std::marker::Model;

/// A scope: the scope around it, the node that opens it, and what it is.
#[derive(Clone, Copy)]
pub struct ScopeRow {
    parent: Option<ScopeId>,
    node: NodeId,
    flags: ScopeFlags,
}

impl ScopeRow {
    /// The scope around it, if any.
    pub(crate) fn parent(&self) -> Option<ScopeId>
        ensures { result ≡ self.now.parent }
    {
        self.parent
    }
}

/// Scopes with what they bind, symbols with their redeclarations and uses, references, the free references by
/// name, and the symbols without side effects. It owns its names.
#[derive(Drop)]
pub struct Scoping {
    alloc: Global,
    names: NameTable,
    scopes: Vec<ScopeRow>,
    bindings: BindingTable,
    symbols: Vec<SymbolRow>,
    references: Vec<Reference>,
    uses: Vec<UseList>,
    free: FreeTable,
    pure_symbols: BTreeSet<SymbolId>,
}

impl Model for Scoping {
    ghost use Rattle.semantic_syntax.specs.Tables.{Tables};

    ghost Value = { Tables };

    ghost use Rattle.scoping.specs.View.{tables, IsSound};

    ghost view = { tables };

    ghost invariant = { IsSound };
}

impl Scoping {
    /// Empty tables.
    pub fn new(alloc: Global) -> Scoping
        ensures { result ≡ record {
          scopes = [];
          bindings = [];
          symbols = [];
          references = [];
          uses = [];
          free = [];
          pure_symbols = [];
        } }
    {
        Scoping {
            alloc,
            names: NameTable::new(alloc),
            scopes: Vec::new(alloc),
            bindings: BindingTable::new(alloc),
            symbols: Vec::new(alloc),
            references: Vec::new(alloc),
            uses: Vec::new(alloc),
            free: FreeTable::new(alloc),
            pure_symbols: BTreeSet::new(alloc),
        }
    }

    /// How many symbols there are. There is an id for each.
    pub fn symbols_len(&self) -> usize
        ensures count { result ≡ length self.now.symbols }
        ensures fits { result < 4294967296 }
    {
        self.symbols.len()
    }

    /// How many references there are. There is an id for each.
    pub fn references_len(&self) -> usize
        ensures count { result ≡ length self.now.references }
        ensures fits { result < 4294967296 }
    {
        self.references.len()
    }

    /// How many scopes there are. There is an id for each.
    pub fn scopes_len(&self) -> usize
        ensures count { result ≡ length self.now.scopes }
        ensures fits { result < 4294967296 }
    {
        self.scopes.len()
    }

    /// Makes room for more symbols, references and scopes.
    pub fn reserve(
        &mut self,
        symbols: usize,
        references: usize,
        scopes: usize,
    ) -> Result<(), AllocError>
        ensures { self.new ≡ self.old }
    {
        self.names.reserve(symbols)?;
        self.bindings.reserve(scopes)?;
        reserve_rows(
            &mut self.scopes,
            &mut self.symbols,
            &mut self.uses,
            &mut self.references,
            scopes,
            symbols,
            references,
        )
    }

    /// The symbols without side effects.
    pub fn no_side_effects(&self) -> &BTreeSet<SymbolId>
        ensures { result.now.keys ≡ self.now.pure_symbols }
    {
        &self.pure_symbols
    }

    /// Notes that the symbol is without side effects.
    pub fn mark_no_side_effects(&mut self, symbol: SymbolId) -> Result<(), AllocError>
        ensures ok { OnOk result
            (self.new
            ≡ record self.old { pure_symbols = insert_key nat_cmp self.old.pure_symbols symbol }) }
        ensures err { OnErr result (self.new ≡ self.old) }
    {
        self.pure_symbols.insert(symbol)?;
        Ok(())
    }
}
