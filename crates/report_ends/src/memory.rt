// Ends in memory, which tell all their bytes and fail at the calls that are named.
ghost use Rattle.std.specs.Prelude.{ℕ, ◌≡◌, ◌≤◌, ◌+◌, ◌-◌, ◌^◌, ◌↔◌, min, [], ◌++◌, length, take, drop, Some, Contains, OnOk, OnErr, IfOk, IsErr, IsErrOf};
ghost use Rattle.std.specs.Io.{ReadsAtMost, WritesAtMost};
ghost use Rattle.std.specs.Io.KnownBytes.{ReadConsumes, WriteAppends};

use crate::{Failed, Sink, Source, WriteFault};
use std::alloc::Global;

/// Copies the front of `left`, at most `most` bytes, to the front of the buffer, and answers how many.
pub fn move_front(left: &[u8], buf: &mut [u8], most: usize) -> usize
    ensures count { result ≡ min (min (length left.now) (length buf.old)) most }
    ensures front { take result buf.new ≡ take result left.now }
    ensures len { length buf.new ≡ length buf.old }
{
    let count = left.len().min(buf.len()).min(most);
    buf[..count].copy_from_slice(&left[..count]);
    count
}

/// A source over bytes. Its calls are counted from 1, up to `u64::MAX`, and those whose numbers stand in `failing` fail.
#[derive(Drop)]
pub struct MemorySource {
    bytes: Vec<u8>,
    place: usize,
    most: usize,
    failing: Vec<u64>,
    calls: u64,
    faults: u64,
    ghost inside: { place ≤ length bytes.items },
    ghost moves: { 1 ≤ most },
}

impl MemorySource {
    ghost use Rattle.report_ends.specs.Memory.{source_left, source_failing, source_calls, source_most};

    /// A source that has all the bytes left. A read moves as many as fit.
    pub fn new(bytes: Vec<u8>, failing: Vec<u64>) -> Self
        ensures left { source_left result ≡ bytes.items }
        ensures failing { source_failing result ≡ failing.items }
        ensures calls { source_calls result ≡ 0 }
        ensures most { source_most result ≡ usize.MAX }
    {
        MemorySource {
            bytes,
            place: 0,
            most: usize::MAX,
            failing,
            calls: 0,
            faults: 0,
        }
    }

    /// The same source, whose reads move at most `most` bytes each.
    pub fn with_piece(self, most: usize) -> Self
        requires { 1 ≤ most }
        ensures left { source_left result ≡ source_left self }
        ensures failing { source_failing result ≡ source_failing self }
        ensures calls { source_calls result ≡ source_calls self }
        ensures most { source_most result ≡ most }
    {
        let MemorySource {
            bytes,
            place,
            most: _,
            failing,
            calls,
            faults,
        } = self;
        MemorySource {
            bytes,
            place,
            most,
            failing,
            calls,
            faults,
        }
    }
}

impl Source for MemorySource {
    ghost use Rattle.report_ends.specs.Causes.{ReadHasCause};
    ghost use Rattle.report_ends.specs.Memory.{source_left, source_failing, source_calls, source_most, next_call};

    ghost left = { λ s. Some (source_left s) };

    ghost faults = { λ s. s.faults };

    #[tactic(auto, using(crate::proofs::Growth::front_and_rest))]
    fn read(&mut self, buf: &mut [u8]) -> Result<usize, Failed>
        ensures bound { ReadsAtMost result buf.new }
        ensures bytes { ReadConsumes (Some (source_left self.old))
            (Some (source_left self.new)) result buf.new }
        ensures cause { ReadHasCause self.old.faults self.new.faults result }
        ensures calls { source_calls self.new ≡ next_call (source_calls self.old) }
        ensures steady { OnOk result (self.new.faults ≡ self.old.faults) }
        ensures fails { IsErr result
            ↔ Contains (source_failing self.old) (next_call (source_calls self.old)) }
        ensures failing { source_failing self.new ≡ source_failing self.old }
        ensures most { source_most self.new ≡ source_most self.old }
        ensures count { IfOk result
            (λ count. count ≡ min (min (length (source_left self.old)) (length buf.old))
            (source_most self.old)) }
    {
        self.calls = self.calls.saturating_add(1);
        if self.failing.contains(&self.calls) {
            self.faults = self.faults.saturating_add(1);
            return Err(Failed);
        }
        let count = move_front(&self.bytes[self.place..], buf, self.most);
        self.place += count;
        Ok(count)
    }
}

/// A sink into memory. It takes at most `most` bytes a call. Its calls are counted from 1, up to `u64::MAX`, and those
/// whose numbers stand in `failing` fail.
#[derive(Drop)]
pub struct MemorySink {
    bytes: Vec<u8>,
    most: usize,
    failing: Vec<u64>,
    calls: u64,
    faults: u64,
    ghost takes: { 1 ≤ most },
}

impl MemorySink {
    ghost use Rattle.report_ends.specs.Memory.{sink_held, sink_failing, sink_calls, sink_most};

    /// A sink that holds nothing.
    pub fn new(alloc: Global, most: usize, failing: Vec<u64>) -> Self
        requires { 1 ≤ most }
        ensures held { sink_held result ≡ [] }
        ensures failing { sink_failing result ≡ failing.items }
        ensures calls { sink_calls result ≡ 0 }
        ensures most { sink_most result ≡ most }
    {
        MemorySink {
            bytes: Vec::new(alloc),
            most,
            failing,
            calls: 0,
            faults: 0,
        }
    }

    /// The bytes that it has taken.
    pub fn held(&self) -> &[u8]
        ensures { result.now ≡ sink_held self.now }
    {
        &self.bytes
    }
}

impl Sink for MemorySink {
    ghost use Rattle.report_ends.specs.Causes.{WriteHasCause};
    ghost use Rattle.report_ends.specs.Memory.{sink_held, sink_failing, sink_calls, sink_most, next_call, Wrote};

    ghost held = { λ s. Some (sink_held s) };

    ghost faults = { λ s. s.faults };

    ghost Offered = { Wrote };

    fn write(&mut self, piece: &[u8]) -> Result<usize, WriteFault>
        ensures bound { WritesAtMost result piece.now }
        ensures bytes { WriteAppends (Some (sink_held self.old))
            (Some (sink_held self.new)) result piece.now }
        ensures cause { WriteHasCause self.old.faults self.new.faults piece.now result }
        ensures calls { sink_calls self.new ≡ next_call (sink_calls self.old) }
        ensures steady { OnOk result (self.new.faults ≡ self.old.faults) }
        ensures fails { IsErrOf result WriteFault.Failed
            ↔ Contains (sink_failing self.old) (next_call (sink_calls self.old)) }
        ensures failing { sink_failing self.new ≡ sink_failing self.old }
        ensures most { sink_most self.new ≡ sink_most self.old }
        ensures count { IfOk result (λ count. count ≡ min (length piece.now) (sink_most self.old)) }
        ensures offered { Wrote self.old piece.now result self.new }
    {
        self.calls = self.calls.saturating_add(1);
        if self.failing.contains(&self.calls) {
            self.faults = self.faults.saturating_add(1);
            return Err(WriteFault::Failed);
        }
        let count = piece.len().min(self.most);
        self.bytes.extend_from_slice(&piece[..count])?;
        Ok(count)
    }
}
