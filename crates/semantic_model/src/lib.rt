//! What the scopes, references, declarations, bindings, ties and tables of a program are, what programs over an
//! analysis share of them, and laws over them.
//! There is no program code here: the definitions stand in `specs/`, each law on a function that does nothing.
#![tactic(auto)]

pub mod laws;
