//! Why a symbol doesn't get a name.

use semantic_syntax::NodeId;
use std::alloc::{AllocError, AllocFailed};
use thiserror::Error;

/// Why a symbol doesn't get a name. The program is as it was.
#[derive(Debug, Drop, Error)]
pub enum RenameError {
    /// The new name is empty, `arguments` or `eval`, which no symbol gets.
    #[error("a name that no symbol gets")]
    BadName,
    /// The least node whose text would change and is also a name that others see: the binding of a target property in
    /// short, an enum member, or a name that a declaration under `export` binds.
    #[error("a name that others see")]
    Fixed(NodeId),
    /// The least node that would declare another symbol, or be tied to another one.
    #[error("another meaning")]
    Differs(NodeId),
    /// Want of memory.
    #[error("out of memory")]
    Memory(AllocError),
}

impl From<AllocError> for RenameError {
    ghost use Rattle.std.specs.Prelude.{◌≡◌};
    ghost use Rattle.renamer.specs.declared.error.RenameError.TheVariants.{Memory};

    ghost from_gives = { λ refused error. error ≡ Memory refused };

    fn from(refused: AllocError) -> RenameError {
        RenameError::Memory(refused)
    }
}

impl<T: Drop> From<AllocFailed<T>> for RenameError {
    ghost use Rattle.std.specs.Prelude.{◌≡◌, alloc_error};
    ghost use Rattle.renamer.specs.declared.error.RenameError.TheVariants.{Memory};

    ghost from_gives = { λ _ error. error ≡ Memory alloc_error };

    fn from(_refused: AllocFailed<T>) -> RenameError {
        RenameError::Memory(AllocError)
    }
}
