//! Bindings.
ghost use Rattle.std.specs.Prelude.{◌≡◌, ◌<◌, ◌++◌, [], ◌∷◌, length, map, nat_eq, slice_index_or, slice_set, is_some, None, IfOk, OnOk, OnErr};
ghost use Rattle.std.specs.Str.{bytes_eq};
ghost use Rattle.std.specs.Map.{lookup, values_of};
ghost use Rattle.indexmap.specs.IndexMap.{insert_entry};
ghost use Rattle.scoping.specs.Claimed.{claimed};
ghost use Rattle.scoping.specs.Numbering.{numbered_from};
ghost use Rattle.scoping_rows.specs.Names.{name_of};
ghost use Rattle.semantic_syntax.specs.Reading.{bindings_of, chain, first_bound};
ghost use Rattle.semantic_syntax.specs.Writing.{bound, unbound};

use super::Scoping;
use super::room::{push_symbol, reserve_symbol};
use crate::bindings::{AllBindings, Bindings, BoundSymbols};
use scoping_rows::binding_table::BindingTable;
use scoping_rows::symbol_row::SymbolRow;
use scoping_rows::use_list::UseList;
use semantic_syntax::{Ident, NodeId, ScopeId, Span, SymbolFlags, SymbolId};
use std::alloc::{AllocError, Global};

/// Adds a symbol without uses, which `bind_in` binds to its name.
fn bind_row(
    alloc: Global,
    bindings: &mut BindingTable,
    symbols: &mut Vec<SymbolRow>,
    uses: &mut Vec<UseList>,
    bind_in: ScopeId,
    row: SymbolRow,
) -> Result<SymbolId, AllocError>
    requires room { length symbols.old.items < 4294967295 }
    requires bind_in { bind_in < length bindings.old }
    ensures made { IfOk result (λ y. y ≡ length symbols.old.items) }
    ensures bindings { OnOk result
        (bindings.new ≡ slice_set bindings.old bind_in
        (insert_entry nat_eq (slice_index_or bindings.old bind_in []) row.name
        (length symbols.old.items))) }
    ensures symbols { OnOk result (symbols.new.items ≡ symbols.old.items ++ row ∷ []) }
    ensures uses { OnOk result
        (map (λ v. v.items) uses.new.items ≡ map (λ v. v.items) uses.old.items ++ [] ∷ []) }
    ensures kept_bindings { OnErr result (bindings.new ≡ bindings.old) }
    ensures kept_symbols { OnErr result (symbols.new.items ≡ symbols.old.items) }
    ensures kept_uses { OnErr result (uses.new.items ≡ uses.old.items) }
{
    let id = SymbolId::new(symbols.len() as u32);
    reserve_symbol(symbols, uses)?;
    bindings.insert(bind_in, row.name(), id)?;
    push_symbol(alloc, symbols, uses, row);
    Ok(id)
}

impl Scoping {
    /// Makes a symbol of `scope` that `bind_in` binds to the name.
    pub fn create_symbol_with_binding(
        &mut self,
        span: Span,
        name: Ident<'_>,
        flags: SymbolFlags,
        scope: ScopeId,
        bind_in: ScopeId,
        node: NodeId,
    ) -> Result<SymbolId, AllocError>
        requires room { length self.old.symbols < 4294967295 }
        requires bind_in { bind_in < length self.old.scopes }
        ensures made { IfOk result (λ y. y ≡ length self.old.symbols) }
        ensures ok { OnOk result
            (self.new ≡ record (bound self.old bind_in (name_of name.entry)
            (length self.old.symbols)) {
              symbols = self.old.symbols
                  ++ record {
                    name = name_of name.entry;
                    span = span;
                    flags = flags;
                    scope = scope;
                    node = node;
                    redeclarations = None;
                  } ∷ [];
              uses = self.old.uses ++ [] ∷ [];
            }) }
        ensures err { OnErr result (self.new ≡ self.old) }
    {
        let number = self.names.intern(name)?;
        let row = SymbolRow::new(number, span, flags, scope, node);
        let id = bind_row(
            self.alloc,
            &mut self.bindings,
            &mut self.symbols,
            &mut self.uses,
            bind_in,
            row,
        )?;
        Ok(id)
    }

    /// What the scope binds to the name, if anything. If nothing, it makes a symbol of the scope, which binds it to the
    /// name then.
    pub fn claim(
        &mut self,
        span: Span,
        name: Ident<'_>,
        flags: SymbolFlags,
        scope: ScopeId,
        node: NodeId,
    ) -> Result<Option<SymbolId>, AllocError>
        requires room { length self.old.symbols < 4294967295 }
        requires scope { scope < length self.old.scopes }
        ensures bound { IfOk result
            (λ o. o ≡ lookup (bytes_eq (name_of name.entry)) (bindings_of self.old scope)) }
        ensures ok { OnOk result
            (self.new ≡ claimed self.old record {
              name = name_of name.entry;
              span = span;
              flags = flags;
              scope = scope;
              node = node;
              redeclarations = None;
            }) }
        ensures err { OnErr result (self.new ≡ self.old) }
    {
        let number = self.names.intern(name)?;
        if let Some(symbol) = self.bindings.get(scope, number) {
            return Ok(Some(symbol));
        }
        let row = SymbolRow::new(number, span, flags, scope, node);
        bind_row(
            self.alloc,
            &mut self.bindings,
            &mut self.symbols,
            &mut self.uses,
            scope,
            row,
        )?;
        Ok(None)
    }

    /// The symbol that the scope binds to the name.
    pub fn get_binding(&self, scope: ScopeId, name: Ident<'_>) -> Option<SymbolId>
        requires { scope < length self.now.scopes }
        ensures { result ≡ lookup (bytes_eq (name_of name.entry)) (bindings_of self.now scope) }
    {
        let number = self.names.find(name)?;
        self.bindings.get(scope, number)
    }

    /// Whether the scope binds the name.
    pub fn scope_has_binding(&self, scope: ScopeId, name: Ident<'_>) -> bool
        requires { scope < length self.now.scopes }
        ensures { result ≡ is_some
            (lookup (bytes_eq (name_of name.entry)) (bindings_of self.now scope)) }
    {
        self.get_binding(scope, name).is_some()
    }

    /// The symbol that the first scope outward binds to the name.
    pub fn find_binding(&self, scope: ScopeId, name: Ident<'_>) -> Option<SymbolId>
        requires { scope < length self.now.scopes }
        ensures { result ≡ first_bound self.now.bindings (name_of name.entry)
            (chain self.now.scopes scope) }
    {
        let mut current = scope;
        loop {
            if let Some(symbol) = self.get_binding(current, name) {
                return Some(symbol);
            }
            match self.scopes[current.index()].parent {
                Some(parent) => current = parent,
                None => return None,
            }
        }
    }

    /// What the scope binds.
    pub fn get_bindings(&self, scope: ScopeId) -> Bindings<'_>
        requires { scope < length self.now.scopes }
        ensures { result ≡ bindings_of self.now scope }
    {
        Bindings::new(&self.names, &self.bindings, scope)
    }

    /// Binds the name to the symbol. A new name goes last, a bound one keeps its position.
    pub fn add_binding(
        &mut self,
        scope: ScopeId,
        name: Ident<'_>,
        symbol: SymbolId,
    ) -> Result<(), AllocError>
        requires scope { scope < length self.old.scopes }
        requires symbol { symbol < length self.old.symbols }
        ensures ok { OnOk result (self.new ≡ bound self.old scope (name_of name.entry) symbol) }
        ensures err { OnErr result (self.new ≡ self.old) }
    {
        let number = self.names.intern(name)?;
        self.bindings.insert(scope, number, symbol)
    }

    /// Unbinds the name. The others keep their order.
    pub fn remove_binding(&mut self, scope: ScopeId, name: Ident<'_>)
        requires { scope < length self.old.scopes }
        ensures { self.new ≡ unbound self.old scope (name_of name.entry) }
    {
        if let Some(number) = self.names.find(name) {
            self.bindings.remove(scope, number);
        }
    }

    /// The symbol that the root binds to the name.
    pub fn get_root_binding(&self, name: Ident<'_>) -> Option<SymbolId>
        requires { 0 < length self.now.scopes }
        ensures { result ≡ lookup (bytes_eq (name_of name.entry)) (bindings_of self.now 0) }
    {
        self.get_binding(self.root_scope_id(), name)
    }

    /// All scopes with what they bind.
    pub fn iter_bindings(&self) -> AllBindings<'_>
        ensures { result ≡ numbered_from 0 self.now.bindings }
    {
        AllBindings::new(&self.names, &self.bindings, self.scopes.len())
    }

    /// The symbols that the scope binds, in the order of binding.
    pub fn iter_bindings_in(&self, scope: ScopeId) -> BoundSymbols<'_>
        requires { scope < length self.now.scopes }
        ensures { result ≡ values_of (bindings_of self.now scope) }
    {
        BoundSymbols::new(&self.bindings, scope)
    }
}
