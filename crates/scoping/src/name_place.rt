//! Where a source of bindings has a name.

/// Where a source has a name, for a look-up that asks several scopes for it: what the source asks then, and the number
/// under which the name stands there, if it does. The number is the source's own: it tells no binding.
#[derive(Drop)]
pub struct NamePlace<'s, T> {
    pub table: &'s T,
    pub number: Option<usize>,
}
