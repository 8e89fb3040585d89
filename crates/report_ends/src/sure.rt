// Ends in memory that never fail.
ghost use Rattle.std.specs.Prelude.{ℕ, ◌≡◌, ◌≤◌, ◌≢◌, min, [], length, Some, IfOk, IsOk, IsErrOf};
ghost use Rattle.std.specs.Io.{ReadsAtMost, WritesAtMost};
ghost use Rattle.std.specs.Io.KnownBytes.{ReadConsumes, WriteAppends};

use crate::memory::move_front;
use crate::{Failed, Sink, Source, WriteFault};
use std::alloc::Global;

/// A source over bytes that never fails.
#[derive(Drop)]
pub struct SureSource {
    bytes: Vec<u8>,
    place: usize,
    ghost inside: { place ≤ length bytes.items },
}

impl SureSource {
    ghost use Rattle.report_ends.specs.Memory.{sure_left};

    /// A source that has all the bytes left.
    pub fn new(bytes: Vec<u8>) -> Self
        ensures { sure_left result ≡ bytes.items }
    {
        SureSource { bytes, place: 0 }
    }
}

impl Source for SureSource {
    ghost use Rattle.report_ends.specs.Causes.{ReadHasCause};
    ghost use Rattle.report_ends.specs.Memory.{sure_left};

    ghost left = { λ s. Some (sure_left s) };

    ghost faults = { λ _. 0 };

    #[tactic(auto, using(crate::proofs::Growth::front_and_rest))]
    fn read(&mut self, buf: &mut [u8]) -> Result<usize, Failed>
        ensures bound { ReadsAtMost result buf.new }
        ensures bytes { ReadConsumes (Some (sure_left self.old))
            (Some (sure_left self.new)) result buf.new }
        ensures cause { ReadHasCause 0 0 result }
        ensures sure { IsOk result }
        ensures count { IfOk result
            (λ count. count ≡ min (length (sure_left self.old)) (length buf.old)) }
    {
        let count = move_front(&self.bytes[self.place..], buf, usize::MAX);
        self.place += count;
        Ok(count)
    }
}

/// A sink into memory that never fails, though memory may be wanting.
#[derive(Drop)]
pub struct SureSink {
    bytes: Vec<u8>,
}

impl SureSink {
    ghost use Rattle.report_ends.specs.Memory.{sure_held};

    /// A sink that holds nothing.
    pub fn new(alloc: Global) -> Self
        ensures { sure_held result ≡ [] }
    {
        SureSink {
            bytes: Vec::new(alloc),
        }
    }

    /// The bytes that it has taken.
    pub fn held(&self) -> &[u8]
        ensures { result.now ≡ sure_held self.now }
    {
        &self.bytes
    }
}

impl Sink for SureSink {
    ghost use Rattle.report_ends.specs.Causes.{WriteHasCause};
    ghost use Rattle.report_ends.specs.Memory.{sure_held};

    ghost held = { λ s. Some (sure_held s) };

    ghost faults = { λ _. 0 };

    ghost Offered = { λ old piece answer new. WriteAppends (Some (sure_held old)) (Some (sure_held new)) answer piece };

    fn write(&mut self, piece: &[u8]) -> Result<usize, WriteFault>
        ensures bound { WritesAtMost result piece.now }
        ensures bytes { WriteAppends (Some (sure_held self.old))
            (Some (sure_held self.new)) result piece.now }
        ensures cause { WriteHasCause 0 0 piece.now result }
        ensures sure { ¬ (IsErrOf result WriteFault.Failed) }
        ensures count { IfOk result (λ count. count ≡ length piece.now) }
        ensures offered { WriteAppends (Some (sure_held self.old)) (Some (sure_held self.new))
            result piece.now }
    {
        self.bytes.extend_from_slice(piece)?;
        Ok(piece.len())
    }
}
