//! A source of bindings that is no `Scoping`.
ghost use Rattle.std.specs.Prelude.{◌≡◌, ◌<◌, length, IfSome};
ghost use Rattle.std.specs.Str.{chars};
ghost use Rattle.semantic_syntax.specs.Source.{IsSource};
ghost use Rattle.library_cases.specs.Nested.{own_symbol, nest_of};

use scoping::name_table::NameTable;
use scoping::{BindingSource, NamePlace};
use semantic_syntax::{
    Ident, ReferenceFlags, ReferenceId, ScopeFlags, ScopeId, Steps, SymbolFlags, SymbolId,
};
use std::alloc::{AllocError, Global};

/// Scopes of one kind, each inside the one before. Each binds one name, to the symbol of its own number, and there is
/// one reference.
#[derive(Drop)]
pub struct Nest {
    names: NameTable,
    flags: ScopeFlags,
    declared: SymbolFlags,
    way: ReferenceFlags,
}

impl Nest {
    /// The scopes that bind the names.
    pub fn new(
        alloc: Global,
        names: &[&str],
        flags: ScopeFlags,
        way: ReferenceFlags,
    ) -> Result<Nest, AllocError> {
        let mut table = NameTable::new(alloc);
        for name in names {
            table.intern(Ident::new(name))?;
        }
        Ok(Nest {
            names: table,
            flags,
            declared: SymbolFlags::FunctionScopedVariable,
            way,
        })
    }

    /// The scope that binds the name.
    pub fn scope_of(&self, name: &str) -> Option<ScopeId>
        ensures { IfSome result (λ s. s < length self.now.names) }
    {
        let number = u32::try_from(self.names.find(Ident::new(name))?).ok()?;
        if number == u32::MAX {
            return None;
        }
        Some(ScopeId::new(number))
    }

    /// The parents make no cycle, and each parent and each bound symbol exists.
    fn attest(&self)
        ensures { IsSource (nest_of self.now.names self.now.flags.bits self.now.declared.bits
            self.now.way.bits) }
    {
        let _names = &self.names;
    }

    /// The symbol that the scope binds to the name.
    fn symbol_in(&self, scope: ScopeId, name: Ident<'_>) -> Option<SymbolId>
        requires { scope < length self.now.names }
        ensures { result ≡ own_symbol self.now.names scope (chars name.entry.text.now) }
    {
        let number = self.names.find(name)?;
        if number != scope.index() {
            return None;
        }
        Some(SymbolId::new(scope.index() as u32))
    }
}

/// It keeps no place of a name, and finds each anew.
impl<L> BindingSource<L> for Nest {
    type Table = Nest;

    ghost meaning = { λ s. nest_of s.names s.flags.bits s.declared.bits s.way.bits };

    ghost is_place = { λ s name table number. Unit };

    fn probe(&self, scope: ScopeId, name: Ident<'_>, steps: &mut Steps<L>) -> Option<SymbolId> {
        self.attest();
        steps.tick();
        self.symbol_in(scope, name)
    }

    fn place_of(&self, _name: Ident<'_>) -> NamePlace<'_, Nest> {
        NamePlace {
            table: self,
            number: None,
        }
    }

    fn probe_at(
        &self,
        scope: ScopeId,
        name: Ident<'_>,
        _place: &NamePlace<'_, Nest>,
        steps: &mut Steps<L>,
    ) -> Option<SymbolId> {
        self.attest();
        steps.tick();
        self.symbol_in(scope, name)
    }

    fn parent(&self, scope: ScopeId) -> Option<ScopeId> {
        self.attest();
        if scope.index() == 0 {
            return None;
        }
        Some(ScopeId::new(scope.index() as u32 - 1))
    }

    fn flags_of_scope(&self, _scope: ScopeId) -> ScopeFlags {
        self.flags
    }

    fn flags_of_symbol(&self, _symbol: SymbolId) -> SymbolFlags {
        self.declared
    }

    fn way(&self, _reference: ReferenceId) -> ReferenceFlags {
        self.way
    }
}
