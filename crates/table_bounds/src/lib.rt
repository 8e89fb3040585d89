//! Within which bounds the tables of programs are: numbers have no more than 64 bits, and all flags have names. There is no
//! program code here: the definitions stand in `specs/`, each law on a function that does nothing.
#![tactic(auto)]

pub mod laws;
