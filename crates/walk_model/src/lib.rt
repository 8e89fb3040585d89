//! The walk over a program as a machine of steps: what each step does to the tables, how large these
//! become, and how many scopes its look-ups ask.
//! There is no program code here: the definitions stand in `specs/`, each law on a function that does nothing.
#![tactic(auto)]

pub mod counts;
pub mod laws;
pub mod look_ups;
