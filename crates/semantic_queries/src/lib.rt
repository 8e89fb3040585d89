//! What an analysis found in a program, and what is asked of it.
#![tactic(auto)]

pub mod global_reference;
pub mod node_queries;
pub mod node_symbols;
pub mod semantic;
pub mod stats;

pub use global_reference::{IsGlobalReference, IsGlobalReferenceName};
pub use semantic::{Semantic, SemanticBuilderReturn, drop_analysis, put_together};
pub use stats::Stats;
