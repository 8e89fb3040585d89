// A source over bytes that the caller keeps.
ghost use Rattle.std.specs.Prelude.{◌≡◌, length, min, Some, IfOk, IsOk};
ghost use Rattle.std.specs.Io.{ReadsAtMost};
ghost use Rattle.std.specs.Io.KnownBytes.{ReadConsumes};

use report_ends::memory::move_front;
use report_ends::{Failed, Source};

/// A source over bytes that the caller keeps. It never fails.
#[derive(Drop)]
pub struct BytesSource<'a> {
    left: &'a [u8],
}

impl<'a> BytesSource<'a> {
    /// A source that has all the bytes left.
    pub fn new(bytes: &'a [u8]) -> Self
        ensures { result.left.now ≡ bytes.now }
    {
        BytesSource { left: bytes }
    }
}

impl<'a> Source for BytesSource<'a> {
    ghost use Rattle.report_ends.specs.Causes.{ReadHasCause};

    ghost left = { λ s. Some s.left.now };

    ghost faults = { λ _. 0 };

    #[tactic(auto, using(report_ends::proofs::Growth::front_and_rest))]
    fn read(&mut self, buf: &mut [u8]) -> Result<usize, Failed>
        ensures bound { ReadsAtMost result buf.new }
        ensures bytes { ReadConsumes (Some self.old.left.now)
            (Some self.new.left.now) result buf.new }
        ensures cause { ReadHasCause 0 0 result }
        ensures sure { IsOk result }
        ensures count { IfOk result
            (λ count. count ≡ min (length self.old.left.now) (length buf.old)) }
    {
        let count = move_front(self.left, buf, usize::MAX);
        self.left = &self.left[count..];
        Ok(count)
    }
}
