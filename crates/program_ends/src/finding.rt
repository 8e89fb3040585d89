//! How a program ends that looks for findings.
ghost use Rattle.std.specs.Prelude.{◌≡◌};
ghost use Rattle.program_ends.specs.Codes.{code_of};
ghost use Rattle.program_ends.specs.FindingEnds.{end_of};
ghost use Rattle.program_ends.specs.declared.finding.FindingStatus.{FindingStatus};

use crate::status::Status;
use crate::stops::Stop;

/// How a program ends that looks for findings. Those of a report are its diagnostics, those of a lint the names that it
/// tells, and those of a link the imports that come to nothing, or to things that differ.
#[derive(Clone, Copy, Debug, PartialEq, Eq)]
pub enum FindingStatus {
    /// 0: the answer is written, and there is no finding.
    Done,
    /// 1: the answer is written, and there are findings.
    Found,
    /// 2: the words are refused.
    Usage,
    /// 3: the input is no program, or no set of modules that can be linked.
    Tree,
    /// 4: the input is too long.
    TooLong,
    /// 5: a call on the source failed.
    Read,
    /// 6: a call on the sink failed.
    Write,
    /// 7: memory is wanting.
    Memory,
}

impl FindingStatus {
    /// The exit status, from 0 to 7.
    pub fn code(self) -> u8
        ensures code { result ≡ code_of (end_of self) }
        // No other status has it.
        ensures own { (other : FindingStatus) → code_of (end_of other) ≡ result → other ≡ self }
    {
        self as u8
    }
}

impl Status for FindingStatus {
    ghost use Rattle.program_ends.specs.FindingEnds.{end_of};

    ghost end_of = { end_of };

    fn of_stop(stop: Stop) -> Self {
        match stop {
            Stop::Usage => FindingStatus::Usage,
            Stop::Tree => FindingStatus::Tree,
            Stop::TooLong => FindingStatus::TooLong,
            Stop::Read => FindingStatus::Read,
            Stop::Write => FindingStatus::Write,
            Stop::Memory => FindingStatus::Memory,
        }
    }

    fn is_answer(self) -> bool {
        matches!(self, FindingStatus::Done | FindingStatus::Found)
    }
}
