//! Whether references are the same, and stand in the same uses.
ghost use Rattle.std.specs.Prelude.{◌≡◌, ◌<◌, length, bytes_eq};
ghost use Rattle.std.specs.Cmp.Lexicographic.{pointwise};
ghost use Rattle.semantic_syntax.specs.Reading.{reference_of};
ghost use Rattle.mangle_model.specs.Tests.{same_reference};

use super::values::{are_same_ids, is_same_symbol_id};
use scoping::Scoping;
use semantic_syntax::{Reference, ReferenceId};

fn is_same_reference(one: &Reference, other: &Reference) -> bool
    ensures { result ≡ same_reference one.now other.now }
{
    one.node_id == other.node_id
        && one.scope_id == other.scope_id
        && one.flags == other.flags
        && is_same_symbol_id(one.symbol_id, other.symbol_id)
}

/// Whether the references are the same.
pub fn are_same_references(one: &Scoping, other: &Scoping) -> bool
    ensures { result ≡ pointwise same_reference other.now.references one.now.references }
{
    if other.references_len() != one.references_len() {
        return false;
    }
    for number in 0..(one.references_len() as u32) {
        let reference = ReferenceId::new(number);
        if !is_same_reference(other.get_reference(reference), one.get_reference(reference)) {
            return false;
        }
    }
    true
}

/// Whether the symbols have the same uses.
pub fn are_same_uses(one: &Scoping, other: &Scoping) -> bool
    ensures { result ≡ pointwise bytes_eq other.now.uses one.now.uses }
{
    let mut theirs = other.resolved_references();
    for uses in one.resolved_references() {
        let Some(found) = theirs.next() else {
            return false;
        };
        if !are_same_ids(found, uses) {
            return false;
        }
    }
    theirs.next().is_none()
}
