//! Clones.
ghost use Rattle.std.specs.Prelude.{◌≡◌, map, IfOk};

use super::{ScopeRow, Scoping};
use scoping_rows::binding_table::BindingTable;
use scoping_rows::free_table::FreeTable;
use scoping_rows::name_table::NameTable;
use scoping_rows::symbol_row::SymbolRow;
use scoping_rows::use_list::UseList;
use semantic_syntax::Reference;
use std::alloc::{AllocError, Global};

/// The names, and what stands under their numbers.
#[derive(Drop)]
struct NamedTables {
    names: NameTable,
    bindings: BindingTable,
    free: FreeTable,
}

impl NamedTables {
    /// Clones of these tables.
    fn cloned(
        names: &NameTable,
        bindings: &BindingTable,
        free: &FreeTable,
    ) -> Result<NamedTables, AllocError>
        ensures names { IfOk result (λ t. t.names ≡ names.now) }
        ensures bindings { IfOk result (λ t. t.bindings ≡ bindings.now) }
        ensures free { IfOk result (λ t. t.free ≡ free.now) }
    {
        Ok(NamedTables {
            free: free.clone()?,
            names: names.clone()?,
            bindings: bindings.clone()?,
        })
    }
}

/// The rows of scopes, symbols and references, and the list of uses of each symbol.
#[derive(Drop)]
struct Rows {
    scopes: Vec<ScopeRow>,
    symbols: Vec<SymbolRow>,
    references: Vec<Reference>,
    uses: Vec<UseList>,
}

impl Rows {
    /// Clones of these rows and lists.
    fn cloned(
        scopes: &Vec<ScopeRow>,
        symbols: &Vec<SymbolRow>,
        references: &Vec<Reference>,
        uses: &Vec<UseList>,
    ) -> Result<Rows, AllocError>
        ensures scopes { IfOk result (λ t. t.scopes.items ≡ scopes.now.items) }
        ensures symbols { IfOk result (λ t. t.symbols.items ≡ symbols.now.items) }
        ensures references { IfOk result (λ t. t.references.items ≡ references.now.items) }
        ensures uses { IfOk result
            (λ t. map (λ v. v.items) t.uses.items ≡ map (λ v. v.items) uses.now.items) }
    {
        Ok(Rows {
            scopes: scopes.clone()?,
            references: references.clone()?,
            uses: uses.clone()?,
            symbols: symbols.clone()?,
        })
    }
}

impl Scoping {
    /// Equal tables, with memory of their own.
    pub fn clone_in_with_semantic_ids_with_another_arena(
        &self,
        alloc: Global,
    ) -> Result<Scoping, AllocError>
        ensures { IfOk result (λ t. t ≡ self.now) }
    {
        let pure_symbols = self.pure_symbols.clone()?;
        let rows = Rows::cloned(&self.scopes, &self.symbols, &self.references, &self.uses)?;
        let named = NamedTables::cloned(&self.names, &self.bindings, &self.free)?;
        Ok(Scoping {
            alloc,
            names: named.names,
            scopes: rows.scopes,
            bindings: named.bindings,
            symbols: rows.symbols,
            references: rows.references,
            uses: rows.uses,
            free: named.free,
            pure_symbols,
        })
    }
}

impl Clone for Scoping {
    ghost is_clone = { λ t u. u ≡ t };

    fn clone(&self) -> Result<Scoping, AllocError> {
        self.clone_in_with_semantic_ids_with_another_arena(self.alloc)
    }
}
