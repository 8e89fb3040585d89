//! What it is to rename a symbol: a program in which one symbol has another name, and each node keeps its symbol.
//! There is no program code here: the definitions stand in `specs/`, each law on a function that does nothing.
#![tactic(auto)]

pub mod laws;
