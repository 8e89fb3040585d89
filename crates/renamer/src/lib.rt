//! A renamer: the program in which one symbol has another name, where no reference changes its symbol and no name that
//! others see changes; and all that the program `renamer` does, over any source and any sinks.
#![tactic(auto)]

mod analysed;
mod bearing;
mod differing;
mod error;
mod fixing;
mod given_names;
mod program;
mod refusal;
mod rename;
mod renaming;
mod request;
mod status;
mod stops;

pub use analysed::Analysed;
pub use bearing::is_bad_name;
pub use differing::first_difference;
pub use error::RenameError;
pub use fixing::first_fixed;
pub use given_names::GivenNames;
pub use program::run_rename;
pub use rename::rename_program;
pub use renaming::{renamed, with_names_in};
pub use status::RenameStatus;
pub use stops::USAGE;
