//! A linker of modules: it ties each import of a set of JavaScript modules to what its chain of exports reaches.
//! `link` does so for a set that was read, `run_link` is the whole program over any source and any sinks. Imports, exports
//! and stars as they stand in the trees (`entries_of`) lead somewhere in numbers (`targets_of`), and what each import comes
//! to is found for all modules at once (`links_of`).
#![tactic(auto)]

mod analysed_module;
mod analysis;
mod described;
mod export_targets;
mod failure;
mod import_targets;
mod linking;
mod links;
mod module_scope;
mod module_targets;
mod program;
mod set_targets;
mod stops;
mod told_links;

pub use analysed_module::AnalysedModule;
pub use link_model::{Link, LinkOutcome};
pub use linking::link;
pub use links::links_of;
pub use module_entries::check::check_modules;
pub use module_entries::entries::{ModuleEntries, entries_of};
pub use module_entries::entry_texts::{default_name, source_text};
pub use module_entries::export::{ExportEntry, ExportWay, default_id, listed_local};
pub use module_entries::import::{ImportEntry, Wanted};
pub use module_entries::link_list::Links;
pub use module_entries::module_names::ModuleNames;
pub use module_entries::texts::Texts;
pub use module_entries::write::write_links;
pub use module_set::{LinkError, Module, Modules, read_modules};
pub use module_targets::{ModuleTargets, targets_of};
pub use program::run_link;
pub use program_ends::FindingStatus as LinkStatus;
pub use report_ends::{
    Failed, MemorySink, MemorySource, Reading, Sink, Source, SureSink, SureSource, WriteFault,
    Writing,
};
pub use stops::USAGE;
