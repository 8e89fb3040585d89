//! Sets of names.
#![tactic(auto)]

mod name_set;

pub use name_set::NameSet;
