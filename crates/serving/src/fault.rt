//! Why requests are answered no further.
ghost use Rattle.std.specs.Prelude.{◌≡◌};

use report_ends::{Failed, ReportError};
use std::alloc::{AllocError, AllocFailed};

/// Why requests are answered no further.
#[derive(Clone, Copy, Debug, PartialEq, Eq)]
pub enum ServeFault {
    /// The input ends within a request.
    Cut,
    /// A request says that its words or its input have more bytes than an input may have.
    TooLong,
    /// The words of a request aren't UTF-8.
    Words,
    /// So many requests were answered as one call answers.
    TooMany,
    /// A call on the source failed.
    Read,
    /// A call on the sink failed, or the sink took nothing of a piece.
    Write,
    /// Memory is wanting.
    Memory,
}

impl From<Failed> for ServeFault {
    ghost use Rattle.serving.specs.declared.fault.ServeFault.TheVariants.{Read};

    ghost from_gives = { λ _ fault. fault ≡ Read };

    fn from(_: Failed) -> Self {
        ServeFault::Read
    }
}

impl From<AllocError> for ServeFault {
    ghost use Rattle.serving.specs.declared.fault.ServeFault.TheVariants.{Memory};

    ghost from_gives = { λ _ fault. fault ≡ Memory };

    fn from(_: AllocError) -> Self {
        ServeFault::Memory
    }
}

impl<T: Drop> From<AllocFailed<T>> for ServeFault {
    ghost use Rattle.serving.specs.declared.fault.ServeFault.TheVariants.{Memory};

    ghost from_gives = { λ _ fault. fault ≡ Memory };

    fn from(_: AllocFailed<T>) -> Self {
        ServeFault::Memory
    }
}
