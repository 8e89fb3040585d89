//! References.
ghost use Rattle.std.specs.Prelude.{◌≡◌, ◌<◌, ◌++◌, [], ◌∷◌, length, map, option_map, is_some, ◌==◌, IfOk, OnOk, OnErr, IfSome};
ghost use Rattle.std.specs.Str.{chars};
ghost use Rattle.semantic_syntax.specs.Reading.{symbol_of, reference_of, uses_of};
ghost use Rattle.scoping.specs.Kept.{is_mutated};
ghost use Rattle.semantic_syntax.specs.Writing.{with_uses};

use super::Scoping;
use crate::reference_iterators::{ReferencesIter, UseLists};
use semantic_syntax::{Reference, ReferenceId, SymbolFlags, SymbolId};
use std::alloc::AllocError;

impl Scoping {
    /// Adds a reference.
    pub fn create_reference(&mut self, reference: Reference) -> Result<ReferenceId, AllocError>
        requires room { length self.old.references < 4294967295 }
        ensures added { IfOk result (λ r. r ≡ length self.old.references) }
        ensures ok { OnOk result
            (self.new ≡ record self.old { references = self.old.references ++ reference ∷ [] }) }
        ensures err { OnErr result (self.new ≡ self.old) }
    {
        let Reference {
            node_id,
            scope_id,
            flags,
            symbol_id,
        } = reference;
        let id = ReferenceId::new(self.references.len() as u32);
        self.references.push(Reference {
            node_id,
            scope_id,
            flags,
            symbol_id,
        })?;
        Ok(id)
    }

    /// The reference.
    pub fn get_reference(&self, reference: ReferenceId) -> &Reference
        requires { reference < length self.now.references }
        ensures { result.now ≡ reference_of self.now reference }
    {
        &self.references[reference.index()]
    }

    /// The name of the symbol to which the reference is tied, if any.
    pub fn get_reference_name(&self, reference: ReferenceId) -> Option<&str>
        requires reference { reference < length self.now.references }
        requires symbol { IfSome (reference_of self.now reference).symbol_id
            (λ y. y < length self.now.symbols) }
        ensures { option_map (λ name. chars name.now) result
            ≡ option_map (λ y. (symbol_of self.now y).name)
            (reference_of self.now reference).symbol_id }
    {
        let symbol = self.references[reference.index()].symbol_id?;
        Some(self.symbol_name(symbol))
    }

    /// Whether the reference is tied to a symbol.
    pub fn has_binding(&self, reference: ReferenceId) -> bool
        requires { reference < length self.now.references }
        ensures { result ≡ is_some (reference_of self.now reference).symbol_id }
    {
        self.references[reference.index()].symbol_id.is_some()
    }

    /// Adds the reference to the symbol's uses, last.
    pub fn add_resolved_reference(
        &mut self,
        symbol: SymbolId,
        reference: ReferenceId,
    ) -> Result<(), AllocError>
        requires symbol { symbol < length self.old.symbols }
        requires reference { reference < length self.old.references }
        ensures ok { OnOk result
            (self.new ≡ with_uses self.old symbol (uses_of self.old symbol ++ reference ∷ [])) }
        ensures err { OnErr result (self.new ≡ self.old) }
    {
        self.uses[symbol.index()].push(reference)?;
        Ok(())
    }

    /// The references that are tied to the symbol.
    pub fn get_resolved_reference_ids(&self, symbol: SymbolId) -> &[ReferenceId]
        requires { symbol < length self.now.symbols }
        ensures { result.now ≡ uses_of self.now symbol }
    {
        self.uses[symbol.index()].as_slice()
    }

    /// The references that are tied to the symbol, from both ends.
    pub fn get_resolved_references(&self, symbol: SymbolId) -> ReferencesIter<'_>
        requires { symbol < length self.now.symbols }
        ensures { result ≡ map (reference_of self.now) (uses_of self.now symbol) }
    {
        ReferencesIter::new(
            self.references.as_slice(),
            self.uses[symbol.index()].as_slice(),
        )
    }

    /// The uses of all symbols.
    pub fn resolved_references(&self) -> UseLists<'_>
        ensures { result ≡ self.now.uses }
    {
        UseLists::new(self.uses.as_slice())
    }

    /// Whether the symbol has no uses.
    pub fn symbol_is_unused(&self, symbol: SymbolId) -> bool
        requires { symbol < length self.now.symbols }
        ensures { result ≡ (length (uses_of self.now symbol) == 0) }
    {
        self.uses[symbol.index()].is_empty()
    }

    /// Whether the symbol is not a constant, and a use of it writes.
    pub fn symbol_is_mutated(&self, symbol: SymbolId) -> bool
        requires { symbol < length self.now.symbols }
        ensures { result ≡ is_mutated self.now symbol }
    {
        if self
            .symbol_flags(symbol)
            .contains(SymbolFlags::ConstVariable)
        {
            return false;
        }
        for reference in self.get_resolved_references(symbol) {
            if reference.is_write() {
                return true;
            }
        }
        false
    }
}
