//! The tangled names of a program: those whose ties in the tables may part from the language's.
#![tactic(auto)]

mod facts;
mod key_set;
mod mention;
mod pass;
mod repeated;
mod scope_questions;
mod surroundings;
mod symbol_names;
mod tangles;
mod typed_facts;

pub use facts::NameFacts;
pub use key_set::KeySet;
pub use mention::Mention;
pub use pass::MentionPass;
pub use tangle_model::Reason;
pub use tangles::{TangledName, TangledNames, tangled_names};
pub use typed_facts::TypedFacts;
