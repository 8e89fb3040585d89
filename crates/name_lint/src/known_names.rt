//! The names that are known.
ghost use Rattle.std.specs.Prelude.{◌≡◌, ℕ, List, IfOk};
ghost use Rattle.name_lint.specs.Known.{known_names};
ghost use Rattle.name_lint.specs.Undeclared.{is_known};

use name_sets::NameSet;
use std::alloc::{AllocError, Global};

/// The names that the words are.
pub fn known_names(alloc: Global, words: &[String]) -> Result<NameSet, AllocError>
    ensures { IfOk result (λ known. (name : List ℕ)
        → is_known known name ≡ is_known (known_names words.now) name) }
{
    let mut known = NameSet::new(alloc);
    for word in words {
        known.add(alloc, word.as_str())?;
    }
    Ok(known)
}
