//! The walk over a program, which makes its tables.
#![tactic(auto)]

pub mod analysis;
pub mod binder;
mod block_target;
mod doings;
pub mod laws;
mod on_leaving;
pub mod path;
pub mod settings;
pub mod visit;
pub mod walk;

pub use analysis::{Analysis, analyse};
pub use binder::Binder;
pub use on_leaving::tell_leaving;
pub use settings::{Room, Settings};
pub use walk::Walk;
