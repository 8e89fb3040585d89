//! Lists of the references that use a symbol.
ghost use Rattle.std.specs.Prelude.{◌≡◌, map, nat_eq};
ghost use Rattle.indexmap.specs.IndexMap.{swap_remove_by};
ghost use Rattle.scoping_rows.specs.Kept.{without_marked, without_type_uses};

use crate::kept::{is_unmarked, is_used_by_value};
use crate::positions::position_of_reference;
use semantic_syntax::{Reference, ReferenceId};
use smallvec::SmallVec;

/// The references that use a symbol, in order. Few symbols have more than four, so four need no memory of their own.
pub type UseList = SmallVec<ReferenceId, 4>;

/// Takes the reference out of the list. The last one takes its position.
pub fn take_out_use(references: &mut UseList, reference: ReferenceId)
    ensures { references.new.items ≡ swap_remove_by (nat_eq reference) references.old.items }
{
    if let Some(index) = position_of_reference(references.as_slice(), reference) {
        let _reference = references.swap_remove(index);
    }
}

/// Drops the marked references.
fn retain_unmarked(list: &mut UseList, excluded: &[bool])
    ensures { list.new.items ≡ without_marked excluded.now list.old.items }
{
    list.retain(|reference| is_unmarked(excluded, *reference));
}

/// Drops the references of types alone.
fn retain_value_uses(list: &mut UseList, references: &[Reference])
    ensures { list.new.items ≡ without_type_uses references.now list.old.items }
{
    list.retain(|reference| is_used_by_value(references, *reference));
}

/// Drops the marked references from each of the lists.
pub fn retain_unmarked_in_each(lists: &mut Vec<UseList>, excluded: &[bool])
    ensures { map (λ v. v.items) lists.new.items
        ≡ map (without_marked excluded.now) (map (λ v. v.items) lists.old.items) }
{
    for list in lists.iter_mut() {
        retain_unmarked(list, excluded);
    }
}

/// Drops the references of types alone from each of the lists.
pub fn retain_values_in_each(lists: &mut Vec<UseList>, references: &[Reference])
    ensures { map (λ v. v.items) lists.new.items
        ≡ map (without_type_uses references.now) (map (λ v. v.items) lists.old.items) }
{
    for list in lists.iter_mut() {
        retain_value_uses(list, references);
    }
}
