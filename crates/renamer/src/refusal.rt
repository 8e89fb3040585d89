//! Why a request isn't done.

use crate::error::RenameError;
use report_ends::ReportError;
use semantic_syntax::{NodeId, SymbolId};
use std::alloc::AllocError;

/// Why a symbol of a program that was read doesn't get a name.
#[derive(Clone, Copy, Debug)]
pub(crate) enum Refusal {
    /// The program has no such symbol.
    NoSymbol(SymbolId),
    /// No symbol gets such a name.
    BadName,
    /// Others see the name, by what this node says.
    Fixed(NodeId),
    /// This node would mean another symbol.
    Differs(NodeId),
}

/// Why a request isn't done.
#[derive(Debug, Drop)]
pub(crate) enum RequestError {
    /// It is refused.
    Refused(Refusal),
    /// It can't be answered: no program is read, or the answer isn't written, or memory is wanting.
    Stopped(ReportError),
}

impl From<ReportError> for RequestError {
    ghost use Rattle.std.specs.Prelude.{◌≡◌};
    ghost use Rattle.renamer.specs.declared.refusal.RequestError.TheVariants.{Stopped};

    ghost from_gives = { λ cause error. error ≡ Stopped cause };

    fn from(cause: ReportError) -> Self {
        RequestError::Stopped(cause)
    }
}

impl From<AllocError> for RequestError {
    ghost use Rattle.std.specs.Prelude.{◌≡◌};
    ghost use Rattle.report_ends.specs.declared.error.ReportError.TheVariants.{Memory};
    ghost use Rattle.renamer.specs.declared.refusal.RequestError.TheVariants.{Stopped};

    ghost from_gives = { λ _ error. error ≡ Stopped Memory };

    fn from(_: AllocError) -> Self {
        RequestError::Stopped(ReportError::Memory)
    }
}

impl From<RenameError> for RequestError {
    ghost use Rattle.std.specs.Prelude.{◌≡◌};
    ghost use Rattle.renamer.specs.Answers.{error_of};

    ghost from_gives = { λ refused error. error ≡ error_of refused };

    fn from(refused: RenameError) -> Self {
        match refused {
            RenameError::BadName => RequestError::Refused(Refusal::BadName),
            RenameError::Fixed(node) => RequestError::Refused(Refusal::Fixed(node)),
            RenameError::Differs(node) => RequestError::Refused(Refusal::Differs(node)),
            RenameError::Memory(_) => RequestError::Stopped(ReportError::Memory),
        }
    }
}
