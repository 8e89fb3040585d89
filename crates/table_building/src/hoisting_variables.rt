//! Names that a scope doesn't bind, but knows of, since a `var` passed it or a function moved out of it: a lexical
//! declaration conflicts with them (ECMAScript 14.2.1, VarDeclaredNames).

ghost use Rattle.std.specs.Prelude.{◌≡◌, [], false, None, OnOk, OnErr};
ghost use Rattle.semantic_syntax.specs.Tables.{Name};
ghost use Rattle.scoping_rows.specs.Names.{name_of};
ghost use Rattle.semantic_model.specs.Binding.{get, put};

use crate::scope_marks::ScopeMarks;
use indexmap::IndexMap;
use scoping::name_table::NameTable;
use semantic_syntax::{Ident, ScopeId, SymbolId};
use std::alloc::{AllocError, Global};
use std::marker::Model;

/// The names that scopes remember, each with its symbol. Most scopes remember none, and have no mark. Contracts see the triples that the definitions call
/// `remembered`.
#[derive(Drop)]
pub struct HoistingVariables {
    names: NameTable,
    symbols: IndexMap<(ScopeId, usize), SymbolId>,
    remembering: ScopeMarks,
}

impl Model for HoistingVariables {
    ghost use Rattle.std.specs.Prelude.{List};
    ghost use Rattle.semantic_model.specs.Binding.{Binding};

    ghost Value = { List Binding };

    ghost use Rattle.table_building.specs.Numbered.{remembered, IsNumberedTable};

    ghost view = { remembered };

    ghost invariant = { IsNumberedTable };
}

impl HoistingVariables {
    /// No scope remembers a name yet.
    pub fn new(alloc: Global) -> HoistingVariables
        ensures { result ≡ [] }
    {
        HoistingVariables {
            names: NameTable::new(alloc),
            symbols: IndexMap::new(alloc),
            remembering: ScopeMarks::new(alloc),
        }
    }

    /// Whether the scope may remember a name.
    pub fn remembers(&self, scope: ScopeId) -> bool
        ensures { (name : Name) → result ≡ false → get self.now scope name ≡ None }
    {
        self.remembering.has(scope)
    }

    /// The symbol that the scope remembers for the name.
    pub fn get(&self, scope: ScopeId, name: Ident<'_>) -> Option<SymbolId>
        ensures { result ≡ get self.now scope (name_of name.entry) }
    {
        if !self.remembering.has(scope) {
            return None;
        }
        let number = self.names.find(name)?;
        let symbol = self.symbols.get(&(scope, number))?;
        Some(*symbol)
    }

    /// The scope remembers the name with the symbol. After want of memory all is as before.
    pub fn put(
        &mut self,
        scope: ScopeId,
        name: Ident<'_>,
        symbol: SymbolId,
    ) -> Result<(), AllocError>
        ensures ok { OnOk result (self.new ≡ put self.old scope (name_of name.entry) symbol) }
        ensures err { OnErr result (self.new ≡ self.old) }
    {
        let number = self.names.intern(name)?;
        self.remembering.mark(scope)?;
        self.symbols.insert((scope, number), symbol)?;
        Ok(())
    }
}
