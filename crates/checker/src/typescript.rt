//! Early errors of TypeScript alone.

pub use type_checks::{
    check_class, check_for_statement_left, check_formal_parameters, check_method_definition,
    check_ts_enum_declaration, check_ts_export_assignment_in_program,
    check_ts_external_module_declaration, check_ts_global_declaration, check_ts_infer_type,
    check_ts_namespace_declaration, check_ts_type_annotation, check_ts_type_predicate,
};
