//! Runs the programs over the stored trees and sets of modules: the report, the report of early errors, the renamer, the
//! mangler, the lint of names, that of tangled names, the check of a file and the linker, each over ends that fail, too.
//! Behind these comes what the example of a caller prints. Each part is told in turn, and has a folder of data but for the
//! check of a file, which takes those of others. That they stand in one program spares the gate a build of all of it for each
//! of them.
#![tactic(auto)]

mod early_errors;
mod ends;
mod example;
mod file_checks;
mod found_names;
mod links;
mod manglings;
mod renamings;
mod reports;
mod tangles;

use std::io;

fn main(rt: HostRuntime) -> io::Result<()> {
    reports::write_all(&rt)?;
    early_errors::write_all(&rt)?;
    renamings::write_all(&rt)?;
    manglings::write_all(&rt)?;
    found_names::write_all(&rt)?;
    tangles::write_all(&rt)?;
    file_checks::write_all(&rt)?;
    links::write_all(&rt)?;
    example::write_all(&rt)
}
