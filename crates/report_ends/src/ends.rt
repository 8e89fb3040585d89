// A source and a sink: what they tell of their bytes, and how often they have failed.
ghost use Rattle.std.specs.Prelude.{ℕ, ◌≡◌, List, Option, Result};
ghost use Rattle.std.specs.Io.{ReadsAtMost, WritesAtMost};
ghost use Rattle.std.specs.Io.KnownBytes.{ReadConsumes, WriteAppends};

use std::alloc::AllocError;

/// A read failed.
#[derive(Clone, Copy, Debug, PartialEq, Eq)]
pub struct Failed;

/// Why a write took nothing: it failed, or memory was wanting.
#[derive(Clone, Copy, Debug, PartialEq, Eq)]
pub enum WriteFault {
    Failed,
    Memory,
}

/// What bytes are read from.
pub trait Source {
    ghost use Rattle.report_ends.specs.Causes.{ReadHasCause};

    /// The bytes that are left, if it tells them.
    ghost left: { Self → Option (List ℕ) };

    /// How often it has failed, up to `u64::MAX`.
    ghost faults: { Self → ℕ };

    /// Moves the first bytes that are left to the front of the buffer, and answers how many. Into a buffer that isn't
    /// empty it reads 0 bytes only at the end. A read that fails moves nothing.
    fn read(&mut self, buf: &mut [u8]) -> Result<usize, Failed>
        ensures bound { ReadsAtMost result buf.new }
        ensures bytes { ReadConsumes (left self.old) (left self.new) result buf.new }
        ensures cause { ReadHasCause (faults self.old) (faults self.new) result };
}

/// What bytes are written to.
pub trait Sink {
    ghost use Rattle.report_ends.specs.Causes.{WriteHasCause};
    ghost use Rattle.report_ends.specs.declared.ends.WriteFault.{WriteFault};

    /// The bytes that it holds, if it tells them.
    ghost held: { Self → Option (List ℕ) };

    /// How often it has failed, up to `u64::MAX`.
    ghost faults: { Self → ℕ };

    /// What it says of a call on `write`: the sink before it, the piece, the answer, and the sink after it. What writes to
    /// any sink can say by this alone which pieces it offers.
    ghost Offered: { Self → List ℕ → Result ℕ WriteFault → Self → Type 0 };

    /// Appends the first bytes of the piece, and answers how many. To take none of a piece that isn't empty is a fault.
    /// A write that fails appends nothing.
    fn write(&mut self, piece: &[u8]) -> Result<usize, WriteFault>
        ensures bound { WritesAtMost result piece.now }
        ensures bytes { WriteAppends (held self.old) (held self.new) result piece.now }
        ensures cause { WriteHasCause (faults self.old) (faults self.new) piece.now result }
        ensures offered { Offered self.old piece.now result self.new };
}

impl From<AllocError> for WriteFault {
    ghost use Rattle.report_ends.specs.declared.ends.WriteFault.TheVariants.{Memory};

    ghost from_gives = { λ _ fault. fault ≡ Memory };

    fn from(_: AllocError) -> Self {
        WriteFault::Memory
    }
}
