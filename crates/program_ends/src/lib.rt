//! What programs share: how they run over the real ends, the way from bytes to a tree, the lines on what stops them, and
//! what their statuses stand for.
#![tactic(auto)]

mod finding;
mod finding_runs;
mod input;
mod standard;
mod status;
mod stops;

pub use finding::FindingStatus;
pub use finding_runs::{FindingProgram, run_findings};
pub use input::read_program_from;
pub use standard::run_over_standard_ends;
pub use status::{Status, finish, refuse, tell};
pub use stops::{Stop, numbered_line, tell_line, tell_stop, tree_line};
