//! What the tables of an analysis are made of: names and their numbers, bindings by number, symbols, and lists of references.
#![tactic(auto)]

pub mod binding_table;
pub mod free_table;
pub mod kept;
pub mod name_table;
pub mod near_slots;
pub mod node_map;
pub mod positions;
pub mod redeclarations;
pub mod scope_slots;
pub mod symbol_row;
pub mod use_list;
