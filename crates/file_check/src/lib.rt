//! The check of a file: what the report and the lint of names say of it, by one analysis.
#![tactic(auto)]

mod answer;
mod program;

pub use program::{USAGE, run_check};
pub use program_ends::FindingStatus as CheckStatus;
