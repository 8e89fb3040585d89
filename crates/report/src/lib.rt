//! The report of what was found in a program.
#![tactic(auto)]

mod program;

pub use program::{USAGE, refuse_words, run};
pub use report_answers::{Options, ReportStatus, write_report};
pub use report_ends::{
    Failed, MemorySink, MemorySource, Reading, ReportError, Sink, Source, SureSink, SureSource,
    WriteFault, Writing, read_input,
};
