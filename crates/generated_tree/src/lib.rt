//! A script that is made to measure the analysis, and its tree.
#![tactic(auto)]

pub mod laws;
mod parts;
mod script;

pub use script::{MOST_FUNCTIONS, generated};
