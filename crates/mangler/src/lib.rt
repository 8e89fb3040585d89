//! A mangler: local names become short ones, where no reference changes its symbol and no name that others see changes.
#![tactic(auto)]

mod changing;
mod comparing;
mod copying;
mod giving;
mod mangling;
mod options;
mod passing;
mod predicates;
mod seen;
mod seen_nodes;
mod spot;
mod written;

pub use mangling::{Mangled, mangle_program};
pub use options::MangleOptions;
