//! What a look-up of names asks.
ghost use Rattle.std.specs.Prelude.{◌≡◌, ◌<◌, ℕ, Option};
ghost use Rattle.std.specs.Str.{chars};
ghost use Rattle.semantic_syntax.specs.Counts.{raised};
ghost use Rattle.semantic_syntax.specs.Source.{Source, IsSource};
ghost use Rattle.semantic_syntax.specs.Tables.{Name};

use crate::name_place::NamePlace;
use semantic_syntax::{
    Ident, ReferenceFlags, ReferenceId, ScopeFlags, ScopeId, Steps, SymbolFlags, SymbolId,
};

/// Scopes with parents, flags and bindings, symbols with flags, and references with ways. Probes are counted
/// on a ledger of the type `L`.
///
/// The law of a source: the parents make no cycle, and each parent and each bound symbol exists.
///
/// `probe` and `probe_at` are the only calls that tell a binding. Each is one probe, which `steps` counts: code that is
/// generic in `L` can make none on another ledger than its caller's.
pub trait BindingSource<L> {
    /// What `probe_at` asks. A source that finds each name anew needs none: `()`.
    type Table;

    // What the calls tell.
    ghost meaning: { Self → Source };

    // Whether the table has the name under the number.
    ghost is_place: { Self → Name → Self.Table → Option ℕ → Type 0 };

    /// The symbol that the scope binds to the name, if any.
    fn probe(&self, scope: ScopeId, name: Ident<'_>, steps: &mut Steps<L>) -> Option<SymbolId>
        requires { scope < (meaning self.now).scopes }
        ensures bound { result ≡ (meaning self.now).bound scope (chars name.entry.text.now) }
        ensures step { steps.new ≡ raised steps.old 1 }
        ensures law { IsSource (meaning self.now) };

    /// Where the source has the name, so that a look-up which asks several scopes finds it once.
    fn place_of(&self, name: Ident<'_>) -> NamePlace<'_, Self::Table>
        ensures { is_place self.now (chars name.entry.text.now) result.table.now result.number };

    /// What `probe` tells, of a name whose place was found.
    fn probe_at(
        &self,
        scope: ScopeId,
        name: Ident<'_>,
        place: &NamePlace<'_, Self::Table>,
        steps: &mut Steps<L>,
    ) -> Option<SymbolId>
        requires scope { scope < (meaning self.now).scopes }
        requires place { is_place self.now
            (chars name.text.now) place.now.table.now place.now.number }
        ensures bound { result ≡ (meaning self.now).bound scope (chars name.entry.text.now) }
        ensures step { steps.new ≡ raised steps.old 1 }
        ensures law { IsSource (meaning self.now) };

    /// The scope around the scope, if any.
    fn parent(&self, scope: ScopeId) -> Option<ScopeId>
        requires { scope < (meaning self.now).scopes }
        ensures outward { result ≡ (meaning self.now).parent scope }
        ensures law { IsSource (meaning self.now) };

    /// The flags of the scope: `arguments` is not looked up past a function that is no arrow.
    fn flags_of_scope(&self, scope: ScopeId) -> ScopeFlags
        requires { scope < (meaning self.now).scopes }
        ensures { result.bits ≡ (meaning self.now).scope_flags scope };

    /// The flags of the symbol, by which it is usable in a way or not.
    fn flags_of_symbol(&self, symbol: SymbolId) -> SymbolFlags
        requires { symbol < (meaning self.now).symbols }
        ensures { result.bits ≡ (meaning self.now).symbol_flags symbol };

    /// The way in which the reference uses its name.
    fn way(&self, reference: ReferenceId) -> ReferenceFlags
        requires { reference < (meaning self.now).references }
        ensures { result.bits ≡ (meaning self.now).way reference };
}
