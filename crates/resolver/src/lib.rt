//! References that wait for their symbol, and the look-ups that tie them, over any source of scopes and bindings.
#![tactic(auto)]

mod lookup;
pub mod outcomes;
pub mod pending;
pub mod resolve;
pub mod rules;

pub use outcomes::{Outcome, Outcomes};
pub use pending::{UnresolvedReference, UnresolvedReferences};
pub use resolve::{resolve_all, resolve_header};
pub use rules::{settled, usable};
