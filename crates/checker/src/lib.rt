//! The early errors of a node: the rules of its kind, in order, which a walk asks on leaving it.
#![tactic(auto)]

mod by_kind;
mod conditions;
mod early_errors;
pub mod javascript;
mod parts;
mod program;
pub mod typescript;

pub use by_kind::check;
pub use check_context::CheckContext;
pub use conditions::is_checkable;
pub use early_errors::EarlyErrors;
