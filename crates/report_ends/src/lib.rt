// The ends of a program: a source of bytes and a sink of bytes, each with a count of its faults.
#![tactic(auto)]

pub mod ends;
pub mod error;
pub mod memory;
pub mod standard;
pub mod streams;
pub mod sure;

pub use ends::{Failed, Sink, Source, WriteFault};
pub use error::ReportError;
pub use memory::{MemorySink, MemorySource};
pub use standard::{Reading, Writing};
pub use streams::{INPUT_LIMIT, read_input, write_whole};
pub use sure::{SureSink, SureSource};
