//! What is wrong in a program: diagnostics, lists of them, and the maker of each, with its whole text.
#![tactic(auto)]

pub mod contexts;
pub mod diagnostic;
pub mod diagnostics;
pub mod makers;
mod parts;
mod texts;

pub use contexts::{ReservedKeywordContext, UnexpectedIdentifierAssignContext};
pub use diagnostic::{Diagnostic, Label, Labels};
pub use diagnostics::{Diagnostics, DiagnosticsIter};
