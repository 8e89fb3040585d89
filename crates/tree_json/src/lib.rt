//! Programs as JSON texts: the reader of both formats, and their writers.
#![tactic(auto)]

mod build;
mod comments;
mod list;
mod places;
mod pull;
mod pull_row;
mod pull_top;
mod read;
mod row;
mod rows;
mod top;
mod values;
mod write;

pub use read::read_program;
pub use write::{write_program, write_program_with_texts};
