//! Symbols.
ghost use Rattle.std.specs.Prelude.{◌≡◌, ◌==◌, ◌<◌, ◌++◌, [], ◌∷◌, length, map, Some, None, unwrap_or, IfOk, OnOk, OnErr};
ghost use Rattle.std.specs.Str.{chars, encode_utf8_all};
ghost use Rattle.std.specs.Int.RustNames.{bit_or};
ghost use Rattle.scoping_rows.specs.Names.{name_of};
ghost use Rattle.semantic_syntax.specs.Reading.{symbol_of, own_entry, redeclarations_of, declarations_of};
ghost use Rattle.std.specs.List.{range_with_len};
ghost use Rattle.semantic_syntax.specs.Tables.{Symbol};
ghost use Rattle.semantic_syntax.specs.Writing.{with_symbol, bound};
ghost use Rattle.scoping_rows.specs.Plain.{plain_count};
ghost use Rattle.scoping.specs.Redeclared.{without_declaration};

use super::Scoping;
use super::room::{push_symbol, reserve_symbol};
use super::rows::set_home;
use crate::symbol_iterators::{Declarations, SymbolIds, SymbolNames};
use scoping_rows::symbol_row::SymbolRow;
use semantic_syntax::{Ident, NodeId, Redeclaration, ScopeId, Span, SymbolFlags, SymbolId};
use std::alloc::AllocError;

impl Scoping {
    /// Makes a symbol of `scope`. It is not bound, and has no uses.
    pub fn create_symbol(
        &mut self,
        span: Span,
        name: Ident<'_>,
        flags: SymbolFlags,
        scope: ScopeId,
        node: NodeId,
    ) -> Result<SymbolId, AllocError>
        requires room { length self.old.symbols < 4294967295 }
        ensures made { IfOk result (λ y. y ≡ length self.old.symbols) }
        ensures ok { OnOk result (self.new ≡ record self.old {
          symbols = self.old.symbols
              ++ record {
                name = name_of name.entry;
                span = span;
                flags = flags;
                scope = scope;
                node = node;
                redeclarations = None;
              } ∷ [];
          uses = self.old.uses ++ [] ∷ [];
        }) }
        ensures err { OnErr result (self.new ≡ self.old) }
    {
        let id = SymbolId::new(self.symbols.len() as u32);
        reserve_symbol(&mut self.symbols, &mut self.uses)?;
        let number = self.names.intern(name)?;
        let row = SymbolRow::new(number, span, flags, scope, node);
        push_symbol(self.alloc, &mut self.symbols, &mut self.uses, row);
        Ok(id)
    }

    /// Where the symbol is declared first.
    pub fn symbol_span(&self, symbol: SymbolId) -> Span
        requires { symbol < length self.now.symbols }
        ensures { result ≡ (symbol_of self.now symbol).span }
    {
        self.symbols[symbol.index()].span()
    }

    /// The symbol's name.
    pub fn symbol_name(&self, symbol: SymbolId) -> &str
        requires { symbol < length self.now.symbols }
        ensures characters { chars result.now ≡ (symbol_of self.now symbol).name }
        ensures bytes { result.now ≡ encode_utf8_all (symbol_of self.now symbol).name }
    {
        self.names.name(self.symbols[symbol.index()].name())
    }

    /// The symbol's name.
    pub fn symbol_ident(&self, symbol: SymbolId) -> Ident<'_>
        requires { symbol < length self.now.symbols }
        ensures characters { name_of result ≡ (symbol_of self.now symbol).name }
        ensures bytes { result.text.now ≡ encode_utf8_all (symbol_of self.now symbol).name }
    {
        Ident::new(self.symbol_name(symbol))
    }

    /// By which declarations the symbol is declared, united over all of them.
    pub fn symbol_flags(&self, symbol: SymbolId) -> SymbolFlags
        requires { symbol < length self.now.symbols }
        ensures { result ≡ (symbol_of self.now symbol).flags }
    {
        self.symbols[symbol.index()].flags()
    }

    /// The scope to which the symbol belongs.
    pub fn symbol_scope_id(&self, symbol: SymbolId) -> ScopeId
        requires { symbol < length self.now.symbols }
        ensures { result ≡ (symbol_of self.now symbol).scope }
    {
        self.symbols[symbol.index()].scope()
    }

    /// The node that declares the symbol first.
    pub fn symbol_declaration(&self, symbol: SymbolId) -> NodeId
        requires { symbol < length self.now.symbols }
        ensures { result ≡ (symbol_of self.now symbol).node }
    {
        self.symbols[symbol.index()].node()
    }

    /// The symbol's redeclarations; none where it has no list.
    pub fn symbol_redeclarations(&self, symbol: SymbolId) -> &[Redeclaration]
        requires { symbol < length self.now.symbols }
        ensures { result.now ≡ redeclarations_of self.now symbol }
    {
        self.symbols[symbol.index()].redeclarations()
    }

    /// How many of the symbol's redeclarations stand before the first async function or generator; all where there is
    /// none. It is kept, so nothing is searched.
    pub fn plain_redeclarations(&self, symbol: SymbolId) -> usize
        requires { symbol < length self.now.symbols }
        ensures { result ≡ plain_count (redeclarations_of self.now symbol) }
    {
        self.symbols[symbol.index()].plain_redeclarations()
    }

    /// The names of all symbols.
    pub fn symbol_names(&self) -> SymbolNames<'_>
        ensures { result ≡ map (λ (y : Symbol). y.name) self.now.symbols }
    {
        SymbolNames::new(&self.names, self.symbols.as_slice())
    }

    /// The ids of all symbols, ascending.
    pub fn symbol_ids(&self) -> SymbolIds
        ensures { result ≡ range_with_len 0 (length self.now.symbols) }
    {
        SymbolIds::new(self.symbols.len())
    }

    /// Whether there are no symbols.
    pub fn symbols_is_empty(&self) -> bool
        ensures { result ≡ (length self.now.symbols == 0) }
    {
        self.symbols.is_empty()
    }

    /// The nodes that declare the symbol: its declaration where it has no redeclarations, else theirs.
    pub fn symbol_declarations(&self, symbol: SymbolId) -> Declarations<'_>
        requires { symbol < length self.now.symbols }
        ensures { result ≡ declarations_of self.now symbol }
    {
        let row = &self.symbols[symbol.index()];
        let list = row.redeclarations();
        let first = if list.is_empty() {
            Some(row.node())
        } else {
            None
        };
        Declarations::new(first, list)
    }

    /// Moves the symbol's span.
    pub fn set_symbol_span(&mut self, symbol: SymbolId, span: Span)
        requires { symbol < length self.old.symbols }
        ensures { self.new ≡ with_symbol self.old symbol
            (record (symbol_of self.old symbol) { span = span }) }
    {
        self.symbols[symbol.index()].set_span(span);
    }

    /// Gives the symbol to the scope. Bindings stay.
    pub fn set_symbol_scope_id(&mut self, symbol: SymbolId, scope: ScopeId)
        requires { symbol < length self.old.symbols }
        ensures { self.new ≡ with_symbol self.old symbol
            (record (symbol_of self.old symbol) { scope = scope }) }
    {
        set_home(&mut self.symbols, symbol, scope);
    }

    /// Adds the flags of one more declaration to the symbol's.
    pub fn union_symbol_flag(&mut self, symbol: SymbolId, includes: SymbolFlags)
        requires { symbol < length self.old.symbols }
        ensures { self.new ≡ with_symbol self.old symbol
            (record (symbol_of self.old symbol) {
              flags = record { bits = bit_or (symbol_of self.old symbol).flags.bits includes.bits };
            }) }
    {
        let row = &mut self.symbols[symbol.index()];
        row.set_flags(row.flags().union(includes));
    }

    /// Adds a declaration to the symbol's list, last. Where there is no list, the symbol's own entry goes first.
    pub fn add_symbol_redeclaration(
        &mut self,
        symbol: SymbolId,
        flags: SymbolFlags,
        node: NodeId,
        span: Span,
    ) -> Result<(), AllocError>
        requires { symbol < length self.old.symbols }
        ensures ok { OnOk result
            (self.new ≡ with_symbol self.old symbol (record (symbol_of self.old symbol) {
              redeclarations = Some
                  (unwrap_or (symbol_of self.old symbol).redeclarations
                  (own_entry (symbol_of self.old symbol) ∷ [])
                  ++ record { span = span; declaration = node; flags = flags } ∷ []);
            })) }
        ensures err { OnErr result (self.new ≡ self.old) }
    {
        let added = Redeclaration {
            span,
            declaration: node,
            flags,
        };
        self.symbols[symbol.index()].add_redeclaration(self.alloc, added)
    }

    /// Forgets the symbol's list of redeclarations.
    pub fn clear_symbol_redeclarations(&mut self, symbol: SymbolId)
        requires { symbol < length self.old.symbols }
        ensures { self.new ≡ with_symbol self.old symbol
            (record (symbol_of self.old symbol) { redeclarations = None }) }
    {
        self.symbols[symbol.index()].clear_redeclarations();
    }

    /// Drops the symbol's redeclarations of the span. Where one or more stay, the first gives the symbol's span and
    /// declaration, and their united flags its flags; where exactly one stays the list goes.
    pub fn remove_symbol_declaration(&mut self, symbol: SymbolId, span: Span)
        requires { symbol < length self.old.symbols }
        ensures { self.new ≡ with_symbol self.old symbol
            (without_declaration (symbol_of self.old symbol) span) }
    {
        self.symbols[symbol.index()].remove_declaration(span);
    }
}
