//! The values, the tree and its text.

mod comments;
mod flags;
mod ids;
mod kinds;
mod reading;
mod script;
mod texts;
mod writing;
