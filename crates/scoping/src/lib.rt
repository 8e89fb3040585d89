//! Scopes, symbols, bindings and references.
#![tactic(auto)]

pub mod bindings;
pub mod name_place;
pub mod node_tables;
pub mod reference_iterators;
pub mod scope_iterators;
pub mod scoping;
pub mod source;
pub mod symbol_iterators;
pub mod unresolved;

pub use bindings::{AllBindings, Bindings, BindingsIter, BoundSymbols};
pub use name_place::NamePlace;
pub use node_tables::NodeTables;
pub use reference_iterators::{ReferencesIter, UseLists};
pub use scope_iterators::{ScopeAncestors, ScopeIds};
pub use scoping::Scoping;
pub use scoping_rows::name_table;
pub use semantic_syntax::Redeclaration;
pub use source::BindingSource;
pub use symbol_iterators::{Declarations, SymbolIds, SymbolNames};
pub use unresolved::{FreeLists, UnresolvedIter, UnresolvedReferences};
