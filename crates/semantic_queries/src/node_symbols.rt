//! What programs over an analysis ask of nodes: the symbol that a node declares, the symbol to which it is tied, and
//! which nodes bind names that other modules see.

pub mod exports;
pub mod laws;
pub mod ties;

pub use exports::{default_exported_names, exported_names};
pub use ties::{symbol_at, tied_at};
