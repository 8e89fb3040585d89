//! A lint of tangled names: those whose ties in the tables may part from the language's.
#![tactic(auto)]

mod finding;
mod program;
mod tangle_lines;

pub use finding::find_tangled_names;
pub use program::{USAGE, run_tangled};
pub use program_ends::FindingStatus as TangledStatus;
