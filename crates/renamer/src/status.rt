//! How the program ends.
ghost use Rattle.std.specs.Prelude.{◌≡◌};
ghost use Rattle.program_ends.specs.Codes.{code_of};
ghost use Rattle.renamer.specs.Codes.{end_of};
ghost use Rattle.renamer.specs.declared.status.RenameStatus.{RenameStatus};

use program_ends::{Status, Stop};

/// How the program ends.
#[derive(Clone, Copy, Debug, PartialEq, Eq)]
pub enum RenameStatus {
    /// The renamed program is written.
    Done = 0,
    /// The words aren't a symbol's number and a name.
    Usage = 2,
    /// The input is no program.
    Tree = 3,
    /// The input is too long.
    TooLong = 4,
    /// A call on the source failed.
    Read = 5,
    /// A call on the sink failed.
    Write = 6,
    /// Memory is wanting.
    Memory = 7,
    /// The symbol doesn't get the name.
    Refused = 8,
}

impl RenameStatus {
    /// The exit status: 0, or one from 2 to 8.
    pub fn code(self) -> u8
        ensures code { result ≡ code_of (end_of self) }
        // No other status has it.
        ensures own { (other : RenameStatus) → code_of (end_of other) ≡ result → other ≡ self }
    {
        self as u8
    }
}

impl Status for RenameStatus {
    ghost use Rattle.renamer.specs.Codes.{end_of};

    ghost end_of = { end_of };

    fn of_stop(stop: Stop) -> Self {
        match stop {
            Stop::Usage => RenameStatus::Usage,
            Stop::Tree => RenameStatus::Tree,
            Stop::TooLong => RenameStatus::TooLong,
            Stop::Read => RenameStatus::Read,
            Stop::Write => RenameStatus::Write,
            Stop::Memory => RenameStatus::Memory,
        }
    }

    fn is_answer(self) -> bool {
        matches!(self, RenameStatus::Done)
    }
}
