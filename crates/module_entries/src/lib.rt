//! What a linker of modules needs no analysis for: imports, exports and stars as they stand in the trees (`entries_of`), which
//! sets are refused (`check_modules`), numbers of texts and of names of modules, and the lines on links.
#![tactic(auto)]

pub mod check;
pub mod distinct_names;
pub mod entries;
pub mod entry_texts;
pub mod export;
pub mod exported_names;
pub mod exporting;
pub mod import;
pub mod importing;
pub mod line;
pub mod link_list;
pub mod locals;
pub mod module_names;
pub mod name_set;
pub mod star_sources;
pub mod texts;
pub mod wanted_target;
pub mod write;
