//! What modules import and export, and what each import comes to. The definitions stand in `specs/`.
#![tactic(auto)]

pub mod laws;
mod outcome;

pub use outcome::{Link, LinkOutcome};
