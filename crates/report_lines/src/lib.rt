//! The lines of a report: how each is made, and how those of a group are written.
#![tactic(auto)]

mod class_lines;
mod count_lines;
mod diagnostic_line;
mod flags;
mod free_names;
mod line;
mod table_lines;
pub mod write_classes;
mod write_counts;
pub mod write_diagnostics;
pub mod write_nodes;
mod write_references;
mod write_scopes;
mod write_symbols;
pub mod write_tables;

pub use line::Line;
pub use write_counts::{write_labels, write_made, write_stats};
