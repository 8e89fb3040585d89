//! Numbers that lead to numbers: the rows of them, and what is reached from some.
#![tactic(auto)]

pub mod laws;
mod marking;
mod rows;
mod search;

pub use rows::{are_within, row, rows_of};
pub use search::reached;
