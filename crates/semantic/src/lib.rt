//! The semantic analysis of a program: scopes, symbols, bindings and references.
#![tactic(auto)]

pub mod builder;
pub mod laws;

pub use builder::SemanticBuilder;
pub use namespace_states::{ModuleInstanceState, module_instance_state};
pub use semantic_queries::{
    IsGlobalReference, IsGlobalReferenceName, Semantic, SemanticBuilderReturn, Stats,
    drop_analysis, global_reference, node_queries, node_symbols, semantic, stats,
};
pub use semantic_walk::{Binder, Walk};
pub use unused_labels::{LabeledScope, UnusedLabels};
