//! Laws over ties and symbols in terms of what is declared where: which declarations a reference sees, in a header too,
//! and which declarations have one symbol.
//! There is no program code here: the definitions stand in `specs/`, each law on a function that does nothing.
#![tactic(auto)]

pub mod laws;
