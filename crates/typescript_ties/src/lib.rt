//! What TypeScript binds where: the containers round a place, what each of them has, and what a name means there, by the language's
//! own words and without the tables. The definitions stand in `specs/`, what they give for small programs in `proofs/`.
#![tactic(auto)]

mod container_kind;
mod declaration_sort;
pub mod laws;

pub use container_kind::ContainerKind;
pub use declaration_sort::DeclarationSort;
