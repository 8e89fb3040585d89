//! Why modules are not linked.

use semantic_syntax::NodeId;
use semantic_tree::TreeError;
use std::alloc::{AllocError, AllocFailed};
use thiserror::Error;

/// Why a set of modules is not read, or its modules are not linked. What was read is dropped. A cause is told at its
/// least module, and there at its least node.
#[derive(Debug, Drop, Error)]
pub enum LinkError {
    /// The bytes are not JSON.
    #[error("not JSON")]
    NotJson,
    /// The value is not of the form of a set, or has too many modules.
    #[error("not of the form")]
    Shape,
    /// The tree of this module is no program, for a cause other than want of memory.
    #[error("the tree of a module is refused")]
    Tree(u32, TreeError),
    /// The goal of this module is none of a module, or its language is not JavaScript.
    #[error("not a module")]
    NotModule(u32),
    /// An earlier module has the name of this one.
    #[error("a name twice")]
    Twice(u32),
    /// This node of this module exports a name that an earlier node of the module exports.
    #[error("an export twice")]
    TwoExports(u32, NodeId),
    /// This star export of this module is of a module that is not in the set.
    #[error("a star of an unknown module")]
    UnknownStar(u32, NodeId),
    /// Want of memory.
    #[error("out of memory")]
    Memory(AllocError),
}

impl From<AllocError> for LinkError {
    ghost use Rattle.std.specs.Prelude.{◌≡◌};
    ghost use Rattle.module_set.specs.declared.error.LinkError.TheVariants.{Memory};

    ghost from_gives = { λ refused error. error ≡ Memory refused };

    fn from(refused: AllocError) -> LinkError {
        LinkError::Memory(refused)
    }
}

impl<T: Drop> From<AllocFailed<T>> for LinkError {
    ghost use Rattle.std.specs.Prelude.{◌≡◌, alloc_error};
    ghost use Rattle.module_set.specs.declared.error.LinkError.TheVariants.{Memory};

    ghost from_gives = { λ _ error. error ≡ Memory alloc_error };

    fn from(_refused: AllocFailed<T>) -> LinkError {
        LinkError::Memory(AllocError)
    }
}
