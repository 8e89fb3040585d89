//! Whether a namespace is more than types (TypeScript's `getModuleInstanceState` in binder.ts).
//! It is the greatest state that it reaches in any number of steps, and is found by what the statements of a program lead to,
//! and what they count as.
#![tactic(auto)]

mod first_by_name;
pub mod instance_state;
pub mod laws;
mod leads;
pub mod namespace_row;
mod open_lists;
mod program_pass;
mod states;

pub use instance_state::{ModuleInstanceState, module_instance_state};
pub use leads::Leads;
pub use program_pass::leads_of;
pub use states::NamespaceStates;
