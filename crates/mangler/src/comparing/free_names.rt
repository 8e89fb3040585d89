//! Whether the free names and their references are the same, and the symbols without side effects.
ghost use Rattle.std.specs.Prelude.{◌≡◌, bytes_eq};
ghost use Rattle.std.specs.Cmp.Lexicographic.{pointwise};
ghost use Rattle.mangle_model.specs.Tests.{same_free};

use super::values::{are_same_ids, is_same_text};
use scoping::Scoping;

/// Whether the free references are the same, by name.
pub fn are_same_free_names(one: &Scoping, other: &Scoping) -> bool
    ensures { result ≡ pointwise same_free other.now.free one.now.free }
{
    let mut theirs = other.root_unresolved_references().iter();
    for (name, references) in one.root_unresolved_references().iter() {
        let Some((found, others)) = theirs.next() else {
            return false;
        };
        if !is_same_text(found.as_str(), name.as_str()) || !are_same_ids(others, references) {
            return false;
        }
    }
    theirs.next().is_none()
}

/// Whether the same symbols have no side effects.
pub fn are_same_pure(one: &Scoping, other: &Scoping) -> bool
    ensures { result ≡ bytes_eq other.now.pure_symbols one.now.pure_symbols }
{
    let mut theirs = other.no_side_effects().iter();
    for symbol in one.no_side_effects().iter() {
        let Some(found) = theirs.next() else {
            return false;
        };
        if found != symbol {
            return false;
        }
    }
    theirs.next().is_none()
}
