//! Early errors of TypeScript: of types and modules, of the members of classes, and of parameters.
#![tactic(auto)]

mod abstract_members;
mod annotations;
mod enums;
mod exports;
mod external_modules;
mod global_word;
mod heads;
mod implementations;
mod infer;
mod members;
mod methods;
mod namespaces;
mod places;
mod program_exports;
mod signatures;

pub use annotations::{check_ts_type_annotation, check_ts_type_predicate, has_good_type};
pub use enums::check_ts_enum_declaration;
pub use external_modules::check_ts_external_module_declaration;
pub use heads::check_for_statement_left;
pub use infer::check_ts_infer_type;
pub use members::check_class;
pub use methods::check_method_definition;
pub use namespaces::{check_ts_global_declaration, check_ts_namespace_declaration};
pub use program_exports::check_ts_export_assignment_in_program;
pub use signatures::check_formal_parameters;
