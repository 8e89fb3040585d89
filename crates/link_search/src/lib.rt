//! What imports come to, in numbers: a search over exported names, which lead to one another and to terminals.
//! Pairs of numbers that lead to pairs get numbers as they are reached. One search goes from all of these at once, for rings
//! and for the terminals where ways end.
#![tactic(auto)]

mod answer;
mod ends;
mod exports;
mod first_values;
mod graph;
pub mod laws;
mod numbering;
mod rings;
mod search;
mod target;
mod terminal;
mod terminals;

pub use answer::Found;
pub use exports::{ModuleExports, SetExports};
pub use first_values::firsts;
pub use graph::{PairGraph, Ways, graph_of};
pub use rings::leading_to_rings;
pub use search::found_all;
pub use target::Target;
pub use terminal::Terminal;
pub use terminals::{Terminals, reached_terminals};
