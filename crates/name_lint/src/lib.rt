//! A lint of names: the symbols that nothing in use uses, and the references to names that nobody declares.
#![tactic(auto)]

mod finding;
mod found_names;
mod id_lists;
mod known_names;
mod liveness;
mod name_lines;
mod program;
mod reference_uses;
mod scope_questions;
mod tree_pass;
mod undeclared_names;

pub use finding::find_names;
pub use found_names::{NameReport, names_by, names_in};
pub use id_lists::{IdList, ReferenceIdList, SymbolIdList};
pub use program::{USAGE, are_names, finish_names, run_names};
pub use program_ends::FindingStatus as NamesStatus;
pub use tree_pass::TreePass;
