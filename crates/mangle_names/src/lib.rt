//! Names for a mangler: which are good ones, and new ones for the symbols of a program.
//! Of a proposal nothing is promised but that it comes to an end. Symbols that are never alive in one scope share a slot, and
//! the slots that stand most often get the shortest names.
#![tactic(auto)]

mod alive;
mod barred;
mod good_names;
mod naming;
mod new_names;
mod numbers;
mod order;
mod proposal;
mod slots;
mod staying;
mod uses;

pub use barred::barred_names;
pub use good_names::{is_ascii_identifier, is_reserved};
pub use new_names::NewNames;
pub use numbers::is_marked;
pub use proposal::proposed;
