//! Positions in lists of references.
ghost use Rattle.std.specs.Prelude.{◌≡◌, nat_eq, position};
ghost use Rattle.indexmap.specs.IndexMap.{swap_remove_by};

use itertools::Itertools;
use semantic_syntax::ReferenceId;

/// The first position of the reference.
pub fn position_of_reference(references: &[ReferenceId], reference: ReferenceId) -> Option<usize>
    ensures { result ≡ position (nat_eq reference) references.now }
{
    let (index, _) = references
        .iter()
        .copied()
        .find_position(|r| *r == reference)?;
    Some(index)
}

/// Takes the reference out of the list. The last one takes its position.
pub fn take_out(references: &mut Vec<ReferenceId>, reference: ReferenceId)
    ensures { references.new.items ≡ swap_remove_by (nat_eq reference) references.old.items }
{
    if let Some(index) = position_of_reference(references, reference) {
        let _reference = references.swap_remove(index);
    }
}
