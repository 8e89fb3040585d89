//! What a check of early errors is handed beside the node, questions that several checks ask of it, and what a walk asks of
//! the rules.
#![tactic(auto)]

pub mod context;
mod declared_function;
mod entries;
mod fits;
mod free_references;
mod grandchildren;
mod links;
mod nodes;
mod outer_class;
mod rules;
mod source_text;
mod told;

pub use context::CheckContext;
pub use declared_function::{is_declared_function, is_function_decl_part_of_if_statement};
pub use entries::one_before_last;
pub use grandchildren::Grandchildren;
pub use links::Links;
pub use nodes::{first_bytes, has_child, is_child_in, is_same, node_of};
pub use rules::Rules;
pub use told::tell;
