//! The kinds of nodes, their roles and marks, and the table of their shapes.
#![tactic(auto)]

pub mod allowed;
pub mod class;
pub mod kind;
pub mod laws;
pub mod lookup;
pub mod mark;
pub mod marks;
pub mod part;
pub mod role;

pub use kind::AstType;
pub use mark::Mark;
pub use marks::Marks;
pub use role::Role;
