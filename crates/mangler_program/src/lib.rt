//! All that the program `mangler` does, over any source and any sinks.
#![tactic(auto)]

mod program;
mod status;
mod words;

pub use program::{USAGE, run_mangle};
pub use status::MangleStatus;
