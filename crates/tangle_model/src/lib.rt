//! Names whose ties in the tables may part from the language's. The definitions stand in `specs/`, what they give for
//! small programs in `proofs/`.
#![tactic(auto)]

mod around;
mod reason;
mod what;

pub use around::{Around, Declarer};
pub use reason::Reason;
pub use what::What;
