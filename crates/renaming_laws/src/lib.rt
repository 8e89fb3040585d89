//! What a renaming keeps besides ties: the conflicts of declarations, early errors, and the
//! program to which it leads back.
//! There is no program code here: the definitions stand in `specs/`, each law on a function that does nothing.
#![tactic(auto)]

pub mod conflicts;
pub mod early_errors;
pub mod going_back;
pub mod names;
pub mod namespaces;
