//! Cases of the libraries that an analysis stands on, through their public calls.
//! They show what no clause says, where no stored run of a program does: that calls succeed with ample memory and give the
//! values meant, and that long inputs need no deep stack. All stand in one crate, so that their tests are linked and built
//! once.
#![tactic(auto)]

pub mod nest;
#[cfg(test)]
mod reach;
#[cfg(test)]
mod tables;
#[cfg(test)]
mod trees;
