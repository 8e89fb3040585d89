//! Early errors of functions that are declared again, of expressions, of `super`, and of classes.
//! Of classes: their names, constructors and elements.
#![tactic(auto)]

mod classes;
mod constructors;
mod earlier_elements;
mod elements;
mod functions;
mod last_by_name;
mod objects;
mod operators;
mod private_names;
mod super_rows;
mod super_search;
mod suspensions;
mod verdict;
mod way;

pub use classes::{check_class, check_class_redeclaration};
pub use elements::{check_duplicate_class_elements, has_sound_elements};
pub use functions::check_function_redeclaration;
pub use objects::check_object_expression;
pub use operators::check_unary_expression;
pub use super_rows::check_super;
pub use suspensions::{check_await_expression, check_yield_expression};
