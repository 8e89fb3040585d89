//! Answers requests that stand one behind the other in one input, each as soon as it is read.
#![tactic(auto)]

mod answering;
mod fault;
mod reading;
mod turns;
mod words;

pub use answering::Answering;
pub use fault::ServeFault;
pub use turns::{MOST_REQUESTS, serve};
pub use words::words_of;
