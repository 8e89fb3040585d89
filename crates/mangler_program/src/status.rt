//! How the program ends.
ghost use Rattle.std.specs.Prelude.{◌≡◌};
ghost use Rattle.program_ends.specs.Codes.{code_of};
ghost use Rattle.mangler_program.specs.Codes.{end_of};
ghost use Rattle.mangler_program.specs.declared.status.MangleStatus.{MangleStatus};

use program_ends::{Status, Stop};

/// How the program ends.
#[derive(Clone, Copy, Debug, PartialEq, Eq)]
pub enum MangleStatus {
    /// The mangled program is written.
    Done = 0,
    /// The words are neither none nor `--toplevel`.
    Usage = 2,
    /// The input is no program.
    Tree = 3,
    /// The input is too long.
    TooLong = 4,
    /// A call on the source failed.
    Read = 5,
    /// A call on the sink failed.
    Write = 6,
    /// Memory is wanting.
    Memory = 7,
}

impl MangleStatus {
    /// The exit status: 0, or one from 2 to 7.
    pub fn code(self) -> u8
        ensures code { result ≡ code_of (end_of self) }
        // No other status has it.
        ensures own { (other : MangleStatus) → code_of (end_of other) ≡ result → other ≡ self }
    {
        self as u8
    }
}

impl Status for MangleStatus {
    ghost use Rattle.mangler_program.specs.Codes.{end_of};

    ghost end_of = { end_of };

    fn of_stop(stop: Stop) -> Self {
        match stop {
            Stop::Usage => MangleStatus::Usage,
            Stop::Tree => MangleStatus::Tree,
            Stop::TooLong => MangleStatus::TooLong,
            Stop::Read => MangleStatus::Read,
            Stop::Write => MangleStatus::Write,
            Stop::Memory => MangleStatus::Memory,
        }
    }

    fn is_answer(self) -> bool {
        matches!(self, MangleStatus::Done)
    }
}
