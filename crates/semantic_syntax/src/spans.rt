//! Parts of the source.
ghost use Rattle.std.specs.Prelude.{◌≡◌, ◌+◌, ◌-◌, ◌<◌, ◌≤◌, ◌↔◌, IsTrue, length, slice_range};
ghost use Rattle.std.specs.Str.{IsCharBoundary};

/// A part of the source, from its first byte to the byte behind its last.
#[derive(Clone, Copy, PartialEq, Eq, Debug)]
pub struct Span {
    pub start: u32,
    pub end: u32,
}

impl Span {
    /// The span from one byte to another. The order of the two is not asked for.
    pub fn new(start: u32, end: u32) -> Span
        ensures { result ≡ record { start = start; end = end } }
    {
        Span { start, end }
    }

    /// The span of so many bytes from one on.
    pub fn sized(start: u32, size: u32) -> Span
        requires { start + size ≤ u32.MAX }
        ensures { result ≡ record { start = start; end = start + size } }
    {
        Span {
            start,
            end: start + size,
        }
    }

    /// The span without its first `n` bytes.
    pub fn shrink_left(self, n: u32) -> Span
        requires { self.start + n ≤ self.end }
        ensures { result ≡ record { start = self.start + n; end = self.end } }
    {
        Span {
            start: self.start + n,
            end: self.end,
        }
    }

    /// The span without its last `n` bytes.
    pub fn shrink_right(self, n: u32) -> Span
        requires { self.start + n ≤ self.end }
        ensures { result ≡ record { start = self.start; end = self.end - n } }
    {
        Span {
            start: self.start,
            end: self.end - n,
        }
    }

    /// Whether the other span starts and ends within this one.
    pub fn contains_inclusive(self, other: Span) -> bool
        ensures { IsTrue result ↔ ((self.start ≤ other.start) × (other.end ≤ self.end)) }
    {
        self.start <= other.start && other.end <= self.end
    }

    /// The text of the source at the span, which lies inside it and on characters.
    pub fn source_text<'a>(self, source: &'a str) -> &'a str
        requires order { self.start ≤ self.end }
        requires inside { self.end ≤ length source.now }
        requires from_character { IsCharBoundary source.now self.start }
        requires to_character { IsCharBoundary source.now self.end }
        ensures { result.now ≡ slice_range source.now self.start self.end }
    {
        &source[self.start as usize..self.end as usize]
    }
}
