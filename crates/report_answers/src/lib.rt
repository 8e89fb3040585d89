//! What the words of the report program ask for, and how it is answered from what an analysis found.
#![tactic(auto)]

mod answer;
mod options;
mod request;
mod word;
mod write;

pub use answer::finish_answer;
pub use options::Options;
pub use program_ends::FindingStatus as ReportStatus;
pub use request::{Request, read_words};
pub use write::{write_report, write_summary};
