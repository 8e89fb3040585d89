//! Cases of analyses and of reports, through their public calls.
//! They show what no stored run of a program shows: what comes of bad input, of deep trees and of ends that fail, and what
//! builders keep. They stand apart from those of the libraries below, whose tests are built while an analysis is proved.
#![tactic(auto)]

#[cfg(test)]
mod analyses;
#[cfg(test)]
mod class_elements;
#[cfg(test)]
mod counting;
#[cfg(test)]
mod free_references;
#[cfg(test)]
mod reports;
#[cfg(test)]
mod swapping;
