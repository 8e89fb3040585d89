//! The tools by their names: which run a word stands for, over any ends and over the standard ones, and all of them behind one
//! input of requests.
#![tactic(auto)]

mod served;
mod status;
mod tool;

pub use served::Tools;
pub use status::ToolStatus;
pub use tool::{Tool, USAGE};
