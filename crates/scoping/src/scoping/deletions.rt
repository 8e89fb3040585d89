//! References and bindings that are dropped.
ghost use Rattle.std.specs.Prelude.{◌≡◌, ◌<◌, length, map, IfSome};
ghost use Rattle.std.specs.Str.{bytes_eq};
ghost use Rattle.std.specs.Option.{option_map_or};
ghost use Rattle.semantic_syntax.specs.Reading.{reference_of};
ghost use Rattle.semantic_syntax.specs.Writing.{without_use};
ghost use Rattle.scoping_rows.specs.Names.{name_of};
ghost use Rattle.scoping_rows.specs.Kept.{without_marked, delisted};
ghost use Rattle.scoping.specs.Kept.{without_typescript};

use super::Scoping;
use scoping_rows::use_list::{retain_unmarked_in_each, retain_values_in_each, take_out_use};
use semantic_syntax::{Ident, ReferenceId, SymbolId};

impl Scoping {
    /// Takes the reference out of the symbol's uses. The last use takes its position.
    pub fn delete_resolved_reference(&mut self, symbol: SymbolId, reference: ReferenceId)
        requires { symbol < length self.old.symbols }
        ensures { self.new ≡ without_use self.old symbol reference }
    {
        take_out_use(&mut self.uses[symbol.index()], reference);
    }

    /// Takes the reference out of the uses of its symbol. It keeps its symbol. Without one nothing happens.
    pub fn delete_reference(&mut self, reference: ReferenceId)
        requires reference { reference < length self.old.references }
        requires symbol { IfSome (reference_of self.old reference).symbol_id
            (λ y. y < length self.old.symbols) }
        ensures { self.new ≡ option_map_or (λ y. without_use self.old y reference)
            (reference_of self.old reference).symbol_id self.old }
    {
        if let Some(symbol) = self.references[reference.index()].symbol_id {
            self.delete_resolved_reference(symbol, reference);
        }
    }

    /// Takes the reference out of the free list of the name. The last one takes its position, and an empty list goes.
    pub fn delete_root_unresolved_reference(&mut self, name: Ident<'_>, reference: ReferenceId)
        ensures { self.new
            ≡ record self.old {
              free = delisted (bytes_eq (name_of name.entry)) reference self.old.free;
            } }
    {
        if let Some(number) = self.names.find(name) {
            self.free.remove(number, reference);
        }
    }

    /// Drops the marked references from the uses of each symbol. Those past the end of the marks stay. What stays
    /// keeps its order.
    pub fn retain_resolved_references_excluding(&mut self, excluded: &[bool])
        ensures { self.new
            ≡ record self.old { uses = map (without_marked excluded.now) self.old.uses } }
    {
        retain_unmarked_in_each(&mut self.uses, excluded);
    }

    /// Drops what stands for types alone: from uses and free lists each reference that is used as a type and not by
    /// value, or for the type of a value; then the empty free lists; and the bindings of type aliases, interfaces,
    /// type parameters and members of enums. What stays keeps its order.
    pub fn delete_typescript_bindings(&mut self)
        ensures { self.new ≡ without_typescript self.old }
    {
        self.bindings.retain_values(&self.symbols);
        retain_values_in_each(&mut self.uses, &self.references);
        self.free.retain_values(&self.references);
    }
}
