//! The makers of diagnostics, in the order of their subjects.

pub mod functions;
pub mod names;
pub mod statements;
pub mod types;

pub use functions::{
    await_or_yield_in_parameter, delete_of_unqualified, delete_private_field,
    duplicate_constructor, require_class_name, super_without_derived_class,
    type_predicate_only_in_return_type, unexpected_super_call, unexpected_super_reference,
};
pub use names::{
    class_static_block_await, class_static_block_await_using, class_static_block_for_await,
    illegal_use_strict, invalid_let_declaration, leading_zero_decimal, legacy_octal,
    non_octal_decimal_escape_sequence, private_field_undeclared, private_not_in_class,
    redeclaration, reserved_keyword, static_and_instance_private_identifier, undefined_export,
    unexpected_arguments, unexpected_identifier_assign,
};
pub use statements::{
    function_declaration_non_strict, function_declaration_strict, invalid_break, invalid_continue,
    invalid_label_jump_target, invalid_label_non_iteration, invalid_label_target,
    label_redeclaration, unexpected_initializer_in_for_loop_head,
    using_declaration_not_allowed_in_script, with_statement,
};
pub use types::{
    abstract_elem_in_concrete_class, accessor_without_body, constructor_implementation_missing,
    enum_member_must_have_initializer, function_implementation_missing,
    global_scope_augmentation_should_have_declare_modifier,
    infer_declaration_only_permitted_in_extends_clause, jsdoc_type_in_annotation,
    nested_ambient_module_declaration, not_allowed_ambient_module_declaration,
    not_allowed_namespace_declaration, parameter_property_only_in_constructor_impl,
    ts_export_assignment_cannot_be_used_with_other_exports, type_annotation_in_for_left,
};
