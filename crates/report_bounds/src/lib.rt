//! Within which bounds the diagnostics, classes and nodes of programs are. There is no program code here: each law stands on
//! a function that does nothing.
#![tactic(auto)]

pub mod laws;
