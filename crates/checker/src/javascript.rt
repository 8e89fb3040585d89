//! Early errors of JavaScript, and those that TypeScript shares with it.

pub use check_context::is_function_decl_part_of_if_statement;
pub use expression_checks::{
    check_await_expression, check_class, check_class_redeclaration, check_duplicate_class_elements,
    check_function_redeclaration, check_object_expression, check_super, check_unary_expression,
    check_yield_expression,
};
pub use statement_checks::{
    check_binding_identifier, check_break_statement, check_continue_statement, check_directive,
    check_for_of_statement, check_for_statement_left, check_function_declaration,
    check_function_declaration_in_labeled_statement, check_identifier, check_identifier_reference,
    check_import_value_redeclarations, check_labeled_statement, check_number_literal,
    check_private_identifier_outside_class, check_string_literal, check_unresolved_exports,
    check_variable_declaration, check_variable_declarator_redeclaration, check_with_statement,
};
