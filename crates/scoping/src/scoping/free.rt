//! Free references.
ghost use Rattle.std.specs.Prelude.{◌≡◌, ◌<◌, ◌++◌, [], ◌∷◌, length, OnOk, OnErr};
ghost use Rattle.std.specs.Str.{bytes_eq};
ghost use Rattle.std.specs.Map.{values_of};
ghost use Rattle.indexmap.specs.IndexMap.{insert_entry};
ghost use Rattle.scoping_rows.specs.Names.{name_of};
ghost use Rattle.semantic_syntax.specs.Reading.{free_of};

use super::Scoping;
use crate::unresolved::{FreeLists, UnresolvedReferences};
use semantic_syntax::{Ident, ReferenceId};
use std::alloc::AllocError;

impl Scoping {
    /// Adds the reference to the free list of the name, last.
    pub fn add_root_unresolved_reference(
        &mut self,
        name: Ident<'_>,
        reference: ReferenceId,
    ) -> Result<(), AllocError>
        requires { reference < length self.old.references }
        ensures ok { OnOk result
            (self.new
            ≡ record self.old {
              free = insert_entry bytes_eq self.old.free (name_of name.entry)
                  (free_of self.old (name_of name.entry) ++ reference ∷ []);
            }) }
        ensures err { OnErr result (self.new ≡ self.old) }
    {
        let number = self.names.intern(name)?;
        self.free.push(number, reference)
    }

    /// The free references of each name.
    pub fn root_unresolved_references(&self) -> UnresolvedReferences<'_>
        ensures { result ≡ self.now.free }
    {
        UnresolvedReferences::new(&self.names, &self.free)
    }

    /// The free lists, names in order of first entry.
    pub fn root_unresolved_references_ids(&self) -> FreeLists<'_>
        ensures { result ≡ values_of self.now.free }
    {
        FreeLists::new(&self.free)
    }
}
