//! What the references use, by their owners.
ghost use Rattle.std.specs.Prelude.{◌≡◌, ◌<◌, ◌++◌, Some, length, filter_map, IfOk, OnOk};
ghost use Rattle.name_lint.specs.Uses.{is_counted, used_symbol, use_of, uses_by};
ghost use Rattle.name_lint.specs.Live.{free_use, owned_use};

use scoping::Scoping;
use semantic_syntax::{Reference, ReferenceFlags, ReferenceId, SymbolId};
use std::alloc::{AllocError, Global};

/// The symbols that are used outside of declarations, and those that owners use, each with its owner.
#[derive(Drop)]
pub struct ReferenceUses {
    pub free: Vec<u32>,
    pub owned: Vec<(u32, u32)>,
}

/// Whether the reference counts as a use: it does more than write.
fn is_counted(reference: &Reference) -> bool
    ensures { result ≡ is_counted reference.now }
{
    reference.flags() != ReferenceFlags::Write
}

/// The symbol that the reference uses, if it is a use.
fn used_symbol(reference: &Reference) -> Option<SymbolId>
    ensures { result ≡ used_symbol reference.now }
{
    if is_counted(reference) {
        reference.symbol_id()
    } else {
        None
    }
}

impl ReferenceUses {
    /// Adds a use.
    fn add(&mut self, owner: Option<SymbolId>, used: SymbolId) -> Result<(), AllocError>
        ensures free { OnOk result (self.new.free.items
            ≡ self.old.free.items ++ filter_map free_use (use_of owner (Some used))) }
        ensures owned { OnOk result (self.new.owned.items
            ≡ self.old.owned.items ++ filter_map owned_use (use_of owner (Some used))) }
    {
        let number = used.index() as u32;
        match owner {
            None => self.free.push(number)?,
            Some(owner) => self.owned.push((owner.index() as u32, number))?,
        }
        Ok(())
    }

    /// Adds a reference with its owner, if it is a use.
    fn add_reference(
        &mut self,
        owner: Option<SymbolId>,
        reference: &Reference,
    ) -> Result<(), AllocError>
        ensures free { OnOk result (self.new.free.items
            ≡ self.old.free.items
            ++ filter_map free_use (use_of owner (used_symbol reference.now))) }
        ensures owned { OnOk result (self.new.owned.items
            ≡ self.old.owned.items
            ++ filter_map owned_use (use_of owner (used_symbol reference.now))) }
    {
        match used_symbol(reference) {
            Some(used) => self.add(owner, used),
            None => Ok(()),
        }
    }

    /// The uses of all references, in order; `owners` has the owner of each.
    pub fn of(
        alloc: Global,
        scoping: &Scoping,
        owners: &[Option<SymbolId>],
    ) -> Result<ReferenceUses, AllocError>
        requires { length owners.now ≡ length scoping.now.references }
        ensures free { IfOk result (λ uses. uses.free.items
            ≡ filter_map free_use (uses_by owners.now scoping.now.references)) }
        ensures owned { IfOk result (λ uses. uses.owned.items
            ≡ filter_map owned_use (uses_by owners.now scoping.now.references)) }
    {
        let mut uses = ReferenceUses {
            free: Vec::new(alloc),
            owned: Vec::new(alloc),
        };
        let count = scoping.references_len() as u32;
        for number in 0..count {
            let reference = scoping.get_reference(ReferenceId::new(number));
            uses.add_reference(owners[number as usize], reference)?;
        }
        Ok(uses)
    }
}
