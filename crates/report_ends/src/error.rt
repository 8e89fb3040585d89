// Why a report isn't written.
ghost use Rattle.std.specs.Prelude.{◌≡◌};

use crate::{Failed, WriteFault};
use semantic_tree::error::TreeError;
use std::alloc::{AllocError, AllocFailed};
use thiserror::Error;

/// Why a report isn't written, or not to its end.
#[derive(Debug, Drop, Error)]
pub enum ReportError {
    /// The input is no program. Want of memory in the reader isn't told so: it is `Memory`.
    #[error("the input is no program")]
    Tree(TreeError),
    /// The input has more bytes than `INPUT_LIMIT`.
    #[error("the input is too long")]
    TooLong,
    /// A call on the source failed.
    #[error("a read failed")]
    Read,
    /// A call on the sink failed, or the sink took nothing of a piece.
    #[error("a write failed")]
    Write,
    /// Memory is wanting.
    #[error("memory is wanting")]
    Memory,
}

impl From<Failed> for ReportError {
    ghost use Rattle.report_ends.specs.declared.error.ReportError.TheVariants.{Read};

    ghost from_gives = { λ _ error. error ≡ Read };

    fn from(_: Failed) -> Self {
        ReportError::Read
    }
}

impl From<WriteFault> for ReportError {
    ghost use Rattle.report_ends.specs.Errors.{error_of_write};

    ghost from_gives = { λ fault error. error ≡ error_of_write fault };

    fn from(fault: WriteFault) -> Self {
        match fault {
            WriteFault::Failed => ReportError::Write,
            WriteFault::Memory => ReportError::Memory,
        }
    }
}

impl From<AllocError> for ReportError {
    ghost use Rattle.report_ends.specs.declared.error.ReportError.TheVariants.{Memory};

    ghost from_gives = { λ _ error. error ≡ Memory };

    fn from(_: AllocError) -> Self {
        ReportError::Memory
    }
}

impl<T: Drop> From<AllocFailed<T>> for ReportError {
    ghost use Rattle.report_ends.specs.declared.error.ReportError.TheVariants.{Memory};

    ghost from_gives = { λ _ error. error ≡ Memory };

    fn from(_: AllocFailed<T>) -> Self {
        ReportError::Memory
    }
}

impl From<TreeError> for ReportError {
    ghost use Rattle.report_ends.specs.Errors.{error_of_tree};

    ghost from_gives = { λ fault error. error ≡ error_of_tree fault };

    fn from(fault: TreeError) -> Self {
        match fault {
            TreeError::Memory(_) => ReportError::Memory,
            other => ReportError::Tree(other),
        }
    }
}
