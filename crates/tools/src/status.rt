//! How a tool ends.
ghost use Rattle.std.specs.Prelude.{◌≡◌};
ghost use Rattle.program_ends.specs.Codes.{code_of};
ghost use Rattle.tools.specs.Ends.{end_of};

use mangler_program::MangleStatus;
use program_ends::{FindingStatus, Status, Stop};
use renamer::RenameStatus;

/// How a tool ends, by its own status.
#[derive(Clone, Copy, Debug, PartialEq, Eq)]
pub enum ToolStatus {
    /// The renamer's.
    Rename(RenameStatus),
    /// The mangler's.
    Mangle(MangleStatus),
    /// That of a tool that looks for findings.
    Finding(FindingStatus),
}

impl ToolStatus {
    /// The exit status.
    pub fn code(self) -> u8
        ensures { result ≡ code_of (end_of self) }
    {
        match self {
            ToolStatus::Rename(status) => status.code(),
            ToolStatus::Mangle(status) => status.code(),
            ToolStatus::Finding(status) => status.code(),
        }
    }
}

impl Status for ToolStatus {
    ghost use Rattle.tools.specs.Ends.{end_of};

    ghost end_of = { end_of };

    fn of_stop(stop: Stop) -> Self {
        ToolStatus::Finding(FindingStatus::of_stop(stop))
    }

    fn is_answer(self) -> bool {
        match self {
            ToolStatus::Rename(status) => status.is_answer(),
            ToolStatus::Mangle(status) => status.is_answer(),
            ToolStatus::Finding(status) => status.is_answer(),
        }
    }
}
