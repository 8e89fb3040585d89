//! What a look-up asks.
ghost use Rattle.std.specs.Prelude.{◌≡◌, ◌<◌, [], length, slice_index_or};
ghost use Rattle.scoping_rows.specs.Flat.{bound_under};
ghost use Rattle.scoping_rows.specs.Names.{name_of};
ghost use Rattle.scoping.specs.Placed.{IsPlaceOf};
ghost use Rattle.semantic_syntax.specs.Reading.{bound_in};
ghost use Rattle.semantic_syntax.specs.Source.{IsSource};
ghost use Rattle.semantic_syntax.specs.Told.{source_of};

use super::Scoping;
use crate::name_place::NamePlace;
use crate::source::BindingSource;
use scoping_rows::binding_table::BindingTable;
use semantic_syntax::{
    Ident, ReferenceFlags, ReferenceId, ScopeFlags, ScopeId, Steps, SymbolFlags, SymbolId,
};

/// The symbol that the scope binds to the number, if there is one.
fn symbol_under(table: &BindingTable, number: Option<usize>, scope: ScopeId) -> Option<SymbolId>
    requires { scope < length table.now }
    ensures { result ≡ bound_under number (slice_index_or table.now scope []) }
{
    match number {
        Some(number) => table.get(scope, number),
        None => None,
    }
}

impl Scoping {
    /// The parents make no cycle, each parent and each bound symbol exists, and each scope has a list of bindings.
    /// What walks outward rests on this.
    pub fn attest(&self)
        ensures source { IsSource (source_of self.now) }
        ensures counted { length self.now.bindings ≡ length self.now.scopes }
    {
        let _scopes = &self.scopes;
    }

    /// Under which number the scopes bind the name.
    fn place_in_scopes(&self, name: Ident<'_>) -> NamePlace<'_, BindingTable>
        ensures { IsPlaceOf self.now (name_of name.entry) result.table.now result.number }
    {
        NamePlace {
            table: &self.bindings,
            number: self.names.find(name),
        }
    }

    /// The symbol that the scope binds to the name, whose place was found.
    fn get_binding_at(
        &self,
        scope: ScopeId,
        name: Ident<'_>,
        place: &NamePlace<'_, BindingTable>,
    ) -> Option<SymbolId>
        requires scope { scope < length self.now.scopes }
        requires place { IsPlaceOf self.now (name_of name) place.now.table.now place.now.number }
        ensures { result ≡ bound_in self.now scope (name_of name.entry) }
    {
        self.attest();
        symbol_under(place.table, place.number, scope)
    }
}

impl<L> BindingSource<L> for Scoping {
    type Table = BindingTable;

    ghost meaning = { source_of };

    ghost is_place = { IsPlaceOf };

    fn probe(&self, scope: ScopeId, name: Ident<'_>, steps: &mut Steps<L>) -> Option<SymbolId> {
        self.attest();
        steps.tick();
        self.get_binding(scope, name)
    }

    fn place_of(&self, name: Ident<'_>) -> NamePlace<'_, BindingTable> {
        self.place_in_scopes(name)
    }

    fn probe_at(
        &self,
        scope: ScopeId,
        name: Ident<'_>,
        place: &NamePlace<'_, BindingTable>,
        steps: &mut Steps<L>,
    ) -> Option<SymbolId> {
        self.attest();
        steps.tick();
        self.get_binding_at(scope, name, place)
    }

    fn parent(&self, scope: ScopeId) -> Option<ScopeId> {
        self.attest();
        self.scope_parent_id(scope)
    }

    fn flags_of_scope(&self, scope: ScopeId) -> ScopeFlags {
        self.scope_flags(scope)
    }

    fn flags_of_symbol(&self, symbol: SymbolId) -> SymbolFlags {
        self.symbol_flags(symbol)
    }

    fn way(&self, reference: ReferenceId) -> ReferenceFlags {
        self.get_reference(reference).flags
    }
}
