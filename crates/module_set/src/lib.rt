//! Sets of modules: the reader of their JSON text, and why a set is refused.
#![tactic(auto)]

mod error;
mod form;
mod modules;
mod read;

pub use error::LinkError;
pub use modules::{Module, Modules};
pub use read::read_modules;
