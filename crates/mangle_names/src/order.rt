//! Numbers in the order of their weights.

const SIZE: u64 = 4294967296;

/// A key that sorts greater weights first, then lesser numbers.
pub fn key_of(weight: usize, number: usize) -> u64 {
    let rest = 4294967295u64.saturating_sub(weight as u64);
    rest.saturating_mul(SIZE).saturating_add(number as u64)
}

/// The number of the key.
pub fn number_of(key: u64) -> usize {
    (key % SIZE) as usize
}
