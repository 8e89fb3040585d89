//! Names of symbols.
ghost use Rattle.std.specs.Prelude.{◌≡◌, ◌==◌, ◌<◌, length, fold, Some, OnOk, OnErr};
ghost use Rattle.std.specs.List.{AllByRecursion};
ghost use Rattle.std.specs.Str.{bytes_eq};
ghost use Rattle.std.specs.Map.{lookup};
ghost use Rattle.scoping_rows.specs.Names.{name_of};
ghost use Rattle.scoping_rows.specs.Row.{row_named};
ghost use Rattle.semantic_syntax.specs.Reading.{symbol_of, bindings_of};
ghost use Rattle.semantic_syntax.specs.Writing.{with_symbol, with_symbol_name, binding_renamed};

use super::Scoping;
use super::rows::{own_number, set_name};
use scoping_rows::symbol_row::SymbolRow;
use semantic_syntax::{Ident, ScopeId, SymbolId};
use std::alloc::AllocError;

/// Gives the rows of the ids the name.
fn set_names(rows: &mut Vec<SymbolRow>, ids: &[SymbolId], number: usize)
    requires { AllByRecursion (λ y. y < length rows.old.items) ids.now }
    ensures { rows.new.items ≡ fold (row_named number) rows.old.items ids.now }
{
    for id in ids {
        set_name(rows, *id, number);
    }
}

impl Scoping {
    /// Gives the symbol another name. Bindings stay.
    pub fn set_symbol_name(&mut self, symbol: SymbolId, name: Ident<'_>) -> Result<(), AllocError>
        requires { symbol < length self.old.symbols }
        ensures ok { OnOk result
            (self.new ≡ with_symbol self.old symbol
            (record (symbol_of self.old symbol) { name = name_of name.entry })) }
        ensures err { OnErr result (self.new ≡ self.old) }
    {
        self.set_symbol_names(&[symbol], name)
    }

    /// Gives the symbols another name. Bindings stay.
    pub fn set_symbol_names(&mut self, ids: &[SymbolId], name: Ident<'_>) -> Result<(), AllocError>
        requires { AllByRecursion (λ y. y < length self.old.symbols) ids.now }
        ensures ok { OnOk result
            (self.new
            ≡ record self.old {
              symbols = fold (with_symbol_name (name_of name.entry)) self.old.symbols ids.now;
            }) }
        ensures err { OnErr result (self.new ≡ self.old) }
    {
        let number = self.names.intern(name)?;
        set_names(&mut self.symbols, ids, number);
        Ok(())
    }

    /// Unbinds the old name, which is bound to the symbol, and binds the new one to it. Equal names stay as they are.
    pub fn rename_binding(
        &mut self,
        scope: ScopeId,
        symbol: SymbolId,
        old: Ident<'_>,
        new: Ident<'_>,
    ) -> Result<(), AllocError>
        requires scope { scope < length self.old.scopes }
        requires symbol { symbol < length self.old.symbols }
        requires bound { lookup (bytes_eq (name_of old)) (bindings_of self.old scope)
            ≡ Some symbol }
        ensures ok { OnOk result
            (self.new ≡ binding_renamed self.old scope symbol (name_of old.entry)
            (name_of new.entry)) }
        ensures err { OnErr result (self.new ≡ self.old) }
    {
        let new_number = self.names.intern(new)?;
        match self.names.find(old) {
            Some(old_number) => self.bindings.rename(scope, old_number, new_number, symbol),
            None => Ok(()),
        }
    }

    /// Gives the symbol another name, and renames its binding in the scope.
    pub fn rename_symbol(
        &mut self,
        symbol: SymbolId,
        scope: ScopeId,
        new: Ident<'_>,
    ) -> Result<(), AllocError>
        requires scope { scope < length self.old.scopes }
        requires symbol { symbol < length self.old.symbols }
        ensures ok { OnOk result
            (self.new ≡ with_symbol
            (binding_renamed self.old scope symbol (symbol_of self.old symbol).name
            (name_of new.entry))
            symbol (record (symbol_of self.old symbol) { name = name_of new.entry })) }
        ensures err { OnErr result (self.new ≡ self.old) }
    {
        let new_number = self.names.intern(new)?;
        let old_number = own_number(&self.names, &self.symbols, symbol);
        self.bindings.rename(scope, old_number, new_number, symbol)?;
        set_name(&mut self.symbols, symbol, new_number);
        Ok(())
    }
}
