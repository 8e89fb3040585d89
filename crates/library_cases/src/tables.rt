//! The tables of a program.

mod classes;
mod edit_rows;
mod edited_tables;
mod edits;
mod long_row;
mod look_ups;
mod nodes;
mod other_source;
mod plain_redeclarations;
mod table_text;
mod types_removed;
