//! Further laws over programs: which marks their tables read, the names of their symbols, and the names that nodes bind.
//! There is no program code here: the definitions stand in `specs/`, each law on a function that does nothing.
#![tactic(auto)]

pub mod bound;
pub mod marks;
pub mod names;
