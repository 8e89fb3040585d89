//! The names that the simple mangler gives: each name that only symbols have which may change becomes one short name, the
//! same for all of them. They are found in linear time.
#![tactic(auto)]

mod changing;
mod known;
mod name_map;
mod naming;
mod next_name;
mod pairs;
mod sets;
mod settings;
mod short_names;
mod standing;

pub use known::Known;
pub use naming::each_named;
