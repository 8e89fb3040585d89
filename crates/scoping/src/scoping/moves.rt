//! Bindings that move.
ghost use Rattle.std.specs.Prelude.{◌≡◌, ◌==◌, ◌<◌, [], false, length, fold, OnOk, OnErr};
ghost use Rattle.std.specs.List.{AllByRecursion};
ghost use Rattle.scoping_rows.specs.Row.{row_moved};
ghost use Rattle.scoping_rows.specs.Names.{name_of};
ghost use Rattle.semantic_syntax.specs.Reading.{symbol_of, bindings_of};
ghost use Rattle.semantic_syntax.specs.Writing.{with_symbol, name_moved, bindings_taken_over};

use super::Scoping;
use super::rows::{own_number, set_home};
use crate::bindings::BoundSymbols;
use scoping_rows::symbol_row::SymbolRow;
use semantic_syntax::{Ident, ScopeId, SymbolId};
use std::alloc::AllocError;

/// Gives the symbols to the scope.
fn set_homes(rows: &mut Vec<SymbolRow>, bound: BoundSymbols<'_>, scope: ScopeId)
    requires { AllByRecursion (λ y. y < length rows.old.items) bound }
    ensures { rows.new.items ≡ fold (row_moved scope) rows.old.items bound.entry }
{
    for symbol in bound {
        set_home(rows, symbol, scope);
    }
}

impl Scoping {
    /// Moves the name from one scope to the other, where it is bound. Where both are one scope, the name is bound no more.
    pub fn move_binding(
        &mut self,
        from: ScopeId,
        to: ScopeId,
        name: Ident<'_>,
    ) -> Result<(), AllocError>
        requires from { from < length self.old.scopes }
        requires to { to < length self.old.scopes }
        ensures ok { OnOk result (self.new ≡ name_moved self.old from to (name_of name.entry)) }
        ensures err { OnErr result (self.new ≡ self.old) }
    {
        match self.names.find(name) {
            Some(number) => self.bindings.move_number(from, to, number),
            None => Ok(()),
        }
    }

    /// Moves the symbol's name from one scope to the other, where it is bound, and gives the symbol to the other
    /// in every case. Where both are one scope, the name is bound no more.
    pub fn move_binding_by_symbol_id(
        &mut self,
        from: ScopeId,
        to: ScopeId,
        symbol: SymbolId,
    ) -> Result<(), AllocError>
        requires from { from < length self.old.scopes }
        requires to { to < length self.old.scopes }
        requires symbol { symbol < length self.old.symbols }
        ensures ok { OnOk result
            (self.new ≡ with_symbol
            (name_moved self.old from to (symbol_of self.old symbol).name) symbol
            (record (symbol_of self.old symbol) { scope = to })) }
        ensures err { OnErr result (self.new ≡ self.old) }
    {
        let number = own_number(&self.names, &self.symbols, symbol);
        self.bindings.move_number(from, to, number)?;
        set_home(&mut self.symbols, symbol, to);
        Ok(())
    }

    /// Makes the list of one scope that of the other, which binds nothing, and gives its symbols to the other.
    pub fn take_over_bindings(&mut self, from: ScopeId, to: ScopeId) -> Result<(), AllocError>
        requires from { from < length self.old.scopes }
        requires to { to < length self.old.scopes }
        requires apart { (from == to) ≡ false }
        requires empty { bindings_of self.old to ≡ [] }
        ensures ok { OnOk result (self.new ≡ bindings_taken_over self.old from to) }
        ensures err { OnErr result (self.new ≡ self.old) }
    {
        self.bindings.take_over(from, to)?;
        let bound = BoundSymbols::new(&self.bindings, to);
        set_homes(&mut self.symbols, bound, to);
        Ok(())
    }
}
