//! The nodes of a program, as its walk hands them out: the whole store of them, or the path to the
//! current one alone.
#![tactic(auto)]

pub mod ancestor_kinds;
pub mod ancestors;
pub mod ancestry;
pub mod ast_node;
pub mod bitset;
mod frame_kinds;
mod held_kinds;
pub mod node_iter;
pub mod nodes;
pub mod stack;
pub mod store;

pub use ancestor_kinds::AncestorKinds;
pub use ancestors::{
    AstNodeAncestorsIter, AstNodeEnumeratedAncestorsIter, AstNodeIdAncestorsIter,
    AstNodeKindAncestorsIter,
};
pub use ancestry::Ancestry;
pub use ast_node::AstNode;
pub use bitset::{AstTypesBitset, AstTypesIter};
pub use node_iter::{AstNodesEnumerated, AstNodesIter};
pub use nodes::AstNodes;
pub use stack::AncestryStack;
pub use store::{AstNodeStore, AstNodeStoreKind};
