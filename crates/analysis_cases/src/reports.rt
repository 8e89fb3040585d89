//! Runs of the report over ends in memory.

mod bad_input;
mod bad_runs;
pub mod cases;
pub mod inputs;
mod runs;
mod tests;
