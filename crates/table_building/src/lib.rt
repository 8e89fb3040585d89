//! The tables under construction: declarations, scopes, references and what settles them.
#![tactic(auto)]

pub mod conflicts;
pub mod declaration;
pub mod declared;
pub mod hoist;
pub mod hoisting_variables;
pub mod names;
pub mod route;
pub mod scope_marks;
pub mod scopes;
pub mod settle;

pub use declared::Declared;
pub use route::Route;
