//! What a node and its parent alone say: its scope, its cursor, its names and its binder row.
#![tactic(auto)]

pub mod ambient;
pub mod bound_identifiers;
pub mod cursor;
pub mod declaring;
pub mod direct_eval;
pub mod inside;
pub mod questions;
pub mod rows;
pub mod scope_kind;
