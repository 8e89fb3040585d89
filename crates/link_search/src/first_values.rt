//! The first value of each key.
ghost use Rattle.std.specs.Prelude.{◌≡◌, ℕ, nat_eq, IfOk};
ghost use Rattle.std.specs.Map.{lookup};
ghost use Rattle.indexmap.specs.IndexMap.{get};

use indexmap::IndexMap;
use std::alloc::{AllocError, Global};

/// The first value of each key. Takes time linear in the pairs.
pub fn firsts<V: Copy>(alloc: Global, pairs: &[(u32, V)]) -> Result<IndexMap<u32, V>, AllocError>
    ensures { IfOk result (λ made. (key : ℕ)
        → get nat_eq made key ≡ lookup (nat_eq key) pairs.now) }
{
    let mut made = IndexMap::new(alloc);
    for (key, value) in pairs {
        if !made.contains_key(key) {
            made.insert(*key, *value)?;
        }
    }
    Ok(made)
}
