//! Laws over reports: what their texts determine. There is no program code here: the definitions stand in `specs/`, each law on
//! a function that does nothing.
#![tactic(auto)]

pub mod laws;
