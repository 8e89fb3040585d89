//! The labels of a program that no jump names (ECMAScript 14.13, Labelled Statements; TypeScript 7028).
#![tactic(auto)]

mod labels;
pub mod laws;
mod open_labels;
mod walking;

pub use labels::{LabeledScope, UnusedLabels};
