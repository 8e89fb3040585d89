//! Parts that are lent to be changed.
ghost use Rattle.std.specs.Prelude.{◌≡◌, ◌<◌, length};
ghost use Rattle.std.specs.Borrow.{sem};
ghost use Rattle.semantic_syntax.specs.Reading.{scope_of, symbol_of, reference_of};
ghost use Rattle.scoping.specs.Lending.{LendsReference, LendsScopeFlags, LendsSymbolFlags};

use super::Scoping;
use semantic_syntax::{Reference, ReferenceId, ScopeFlags, ScopeId, SymbolFlags, SymbolId};

impl Scoping {
    /// The reference, to be changed.
    pub fn get_reference_mut(&mut self, reference: ReferenceId) -> &mut Reference
        requires { reference < length self.old.references }
        ensures* writes_back { sem 𝓛 (LendsReference self.entry reference result) }
        ensures value { result.now ≡ reference_of self.old reference }
    {
        &mut self.references[reference.index()]
    }

    /// The flags of the scope, to be changed. Nothing else follows.
    pub fn scope_flags_mut(&mut self, scope: ScopeId) -> &mut ScopeFlags
        requires { scope < length self.old.scopes }
        ensures* writes_back { sem 𝓛 (LendsScopeFlags self.entry scope result) }
        ensures value { result.now ≡ (scope_of self.old scope).flags }
    {
        let row = &mut self.scopes[scope.index()];
        &mut row.flags
    }

    /// The flags of the symbol, to be changed. Nothing else follows.
    pub fn symbol_flags_mut(&mut self, symbol: SymbolId) -> &mut SymbolFlags
        requires { symbol < length self.old.symbols }
        ensures* writes_back { sem 𝓛 (LendsSymbolFlags self.entry symbol result) }
        ensures value { result.now ≡ (symbol_of self.old symbol).flags }
    {
        self.symbols[symbol.index()].flags_mut()
    }
}
