//! What ECMAScript binds where: the environments round a place, what each of them binds, and what a name means there, by the
//! standard's own words and without the tables. The definitions stand in `specs/`, what they give for small programs in
//! `proofs/`.
#![tactic(auto)]

mod bound_as;
mod environment_kind;
pub mod laws;

pub use bound_as::BoundAs;
pub use environment_kind::EnvironmentKind;
