//! Early errors of names, literals, statements, exports and imports.
//! Of statements: their bodies, jumps, labels, and the variables that they declare. Exports and imports: of a whole program.
#![tactic(auto)]

mod bodies;
mod escapes;
mod exports;
mod imports;
mod jumps;
mod labels;
mod literals;
mod names;
mod references;
mod variables;

pub use bodies::{
    check_function_declaration, check_function_declaration_in_labeled_statement,
    check_with_statement,
};
pub use exports::check_unresolved_exports;
pub use imports::check_import_value_redeclarations;
pub use jumps::{check_break_statement, check_continue_statement};
pub use labels::check_labeled_statement;
pub use literals::{check_directive, check_number_literal, check_string_literal};
pub use names::{
    check_binding_identifier, check_identifier, check_private_identifier_outside_class,
};
pub use references::check_identifier_reference;
pub use variables::{
    check_for_of_statement, check_for_statement_left, check_variable_declaration,
    check_variable_declarator_redeclaration,
};
