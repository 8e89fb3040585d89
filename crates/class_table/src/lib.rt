//! The classes of a program, with their elements and the uses of private names in them (ECMAScript 15.7.1,
//! PrivateBoundIdentifiers and AllPrivateIdentifiersValid).
#![tactic(auto)]

pub mod ancestors;
pub mod builder;
pub mod element;
pub mod element_ids;
pub mod iterators;
pub mod laws;
mod making;
mod meant_names;
pub mod private_name;
pub mod table;
mod walking;

pub use ancestors::ClassAncestors;
pub use builder::ClassTableBuilder;
pub use element::Element;
pub use element_ids::ElementIds;
pub use iterators::{ClassesEnumerated, PrivateUses};
pub use private_name::PrivateIdentifierReference;
pub use table::ClassTable;
