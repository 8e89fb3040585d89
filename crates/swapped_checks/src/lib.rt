//! What swapped names do to early errors.
//! There is no program code here: the definitions stand in `specs/`, each law on a function that does nothing.
#![tactic(auto)]

pub mod laws;
