//! What a walk over a program notes beside its tables: classes, labels that no jump names, and what bars block functions.
//! A block function is barred by the declarations past which it doesn't move (ECMAScript, Annex B.3.2).
#![tactic(auto)]

pub mod laws;
pub mod lazy;
pub mod namesakes;
pub mod notes;

pub use lazy::LazyNamesakes;
pub use namesakes::Namesakes;
pub use notes::Notes;
