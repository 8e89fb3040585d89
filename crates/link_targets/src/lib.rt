//! What targets stand for whose texts have numbers, and that they come to what is meant. There is no program code here:
//! the definitions stand in `specs/`.
#![tactic(auto)]

pub mod laws;
