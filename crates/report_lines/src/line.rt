//! A line of a report that is being made.
ghost use Rattle.std.specs.Prelude.{ℕ, ◌≡◌, ◌<◌, ◌++◌, [], OnOk, decimal, true};
ghost use Rattle.std.specs.List.{list_all};
ghost use Rattle.report_ends.specs.Offers.{OffersPiece};
ghost use Rattle.report_ends.specs.Streams.{Writes};
ghost use Rattle.report_lines.specs.Made.{OffersMade};
ghost use Rattle.report_lines.specs.Pieces.{quoted, is_plain_byte, two_digits, number_or_dash, behind_space, span_text};

use itoa::Buffer;
use report_ends::{ReportError, Sink, write_whole};
use semantic_syntax::Span;
use serde_json::Value;
use std::alloc::{AllocError, Global};
use std::marker::Model;

/// A line that is being made. Contracts see its bytes. One line is made after the other in it, so that its room is used
/// again. After want of memory it has a prefix of what was to be added.
#[derive(Drop)]
pub struct Line {
    alloc: Global,
    bytes: Vec<u8>,
}

impl Model for Line {
    ghost use Rattle.std.specs.Prelude.{List, ℕ};

    ghost Value = { List ℕ };

    ghost view = { λ line. line.bytes.items };
}

// Whether a text stands in a JSON string as it is. It reads the whole text, since names are short and mostly plain, and
// no byte costs a branch then.
fn is_plain(text: &str) -> bool
    ensures { result ≡ list_all is_plain_byte text.now }
{
    let mut plain = true;
    for byte in text.as_bytes() {
        plain &= (32 <= *byte) & (*byte != b'"') & (*byte != b'\\');
    }
    plain
}

impl Line {
    /// An empty line.
    pub fn new(alloc: Global) -> Line
        ensures { result ≡ [] }
    {
        Line {
            alloc,
            bytes: Vec::new(alloc),
        }
    }

    /// Begins the next line.
    pub fn begin(&mut self)
        ensures { self.new ≡ [] }
    {
        self.bytes.clear();
    }

    /// Adds a text as it is. Inlined, a label costs a few moves and no call.
    #[inline(always)]
    pub fn push(&mut self, text: &str) -> Result<(), AllocError>
        ensures { OnOk result (self.new ≡ self.old ++ text.now) }
    {
        self.bytes.extend_from_slice(text.as_bytes())
    }

    // Adds the digits of a number of two digits, or a zero and its digit.
    #[inline(always)]
    fn push_pair(&mut self, pair: usize) -> Result<(), AllocError>
        requires { pair < 100 }
        ensures { OnOk result (self.new ≡ self.old ++ two_digits pair) }
    {
        let (ten, one) = (pair / 10, pair % 10);
        self.bytes.reserve(2)?;
        self.bytes.push_reserved(b'0' + ten as u8);
        self.bytes.push_reserved(b'0' + one as u8);
        Ok(())
    }

    // Adds a number of one or two digits.
    #[inline(always)]
    #[tactic(auto, using(crate::proofs::Decimals::one_digit, crate::proofs::Decimals::two_digits_alone))]
    fn push_first(&mut self, number: usize) -> Result<(), AllocError>
        requires { number < 100 }
        ensures { OnOk result (self.new ≡ self.old ++ decimal number) }
    {
        if number < 10 {
            self.bytes.reserve(1)?;
            self.bytes.push_reserved(b'0' + number as u8);
            Ok(())
        } else {
            self.push_pair(number)
        }
    }

    // Adds a number of up to four digits.
    #[inline(always)]
    #[tactic(auto, using(crate::proofs::Decimals::two_digits_more))]
    fn push_short(&mut self, number: usize) -> Result<(), AllocError>
        requires { number < 10000 }
        ensures { OnOk result (self.new ≡ self.old ++ decimal number) }
    {
        if number < 100 {
            return self.push_first(number);
        }
        self.push_first(number / 100)?;
        self.push_pair(number % 100)
    }

    // Adds a number of any length.
    fn push_long(&mut self, number: usize) -> Result<(), AllocError>
        ensures { OnOk result (self.new ≡ self.old ++ decimal number) }
    {
        let mut buffer = Buffer::new();
        self.push(buffer.format(number))
    }

    /// Adds a number. The digits of one below a million go straight into the line, which is faster than a copy of them.
    #[inline(always)]
    #[tactic(auto, using(crate::proofs::Decimals::two_digits_more))]
    pub fn push_number(&mut self, number: usize) -> Result<(), AllocError>
        ensures { OnOk result (self.new ≡ self.old ++ decimal number) }
    {
        if number < 10_000 {
            return self.push_short(number);
        }
        if number < 1_000_000 {
            self.push_short(number / 100)?;
            return self.push_pair(number % 100);
        }
        self.push_long(number)
    }

    /// Adds a label and a number.
    #[inline(always)]
    pub fn push_labelled(&mut self, label: &str, number: usize) -> Result<(), AllocError>
        ensures { OnOk result (self.new ≡ self.old ++ (label.now ++ decimal number)) }
    {
        self.push(label)?;
        self.push_number(number)
    }

    /// Adds a label and a number, or a dash for none.
    pub fn push_number_or_dash(
        &mut self,
        label: &str,
        number: Option<usize>,
    ) -> Result<(), AllocError>
        ensures { OnOk result (self.new ≡ self.old ++ (label.now ++ number_or_dash number)) }
    {
        self.push(label)?;
        match number {
            None => self.push("-"),
            Some(number) => self.push_number(number),
        }
    }

    /// Adds a space and a number.
    #[inline(always)]
    pub fn push_behind_space(&mut self, number: usize) -> Result<(), AllocError>
        ensures { OnOk result (self.new ≡ self.old ++ behind_space number) }
    {
        self.push_labelled(" ", number)
    }

    /// Adds both ends of a span behind a label.
    #[inline(always)]
    pub fn push_span(&mut self, label: &str, span: Span) -> Result<(), AllocError>
        ensures { OnOk result (self.new ≡ self.old ++ (label.now ++ span_text span)) }
    {
        self.push_labelled(label, span.start as usize)?;
        self.push_labelled("-", span.end as usize)
    }

    /// Adds a label, and a text as a compact JSON string.
    #[inline(always)]
    pub fn push_quoted(&mut self, label: &str, text: &str) -> Result<(), AllocError>
        ensures { OnOk result (self.new ≡ self.old ++ (label.now ++ quoted text.now)) }
    {
        self.push(label)?;
        if is_plain(text) {
            self.push_plain(text)
        } else {
            self.push_escaped(text)
        }
    }

    // Adds a text without anything to escape as a JSON string.
    #[inline(always)]
    #[tactic(auto, using(crate::proofs::Quoting::quoted_plain))]
    fn push_plain(&mut self, text: &str) -> Result<(), AllocError>
        requires { list_all is_plain_byte text.now ≡ true }
        ensures { OnOk result (self.new ≡ self.old ++ quoted text.now) }
    {
        self.push("\"")?;
        self.push(text)?;
        self.push("\"")?;
        Ok(())
    }

    // Adds a text as a compact JSON string.
    #[tactic(auto, unfolding(crate::specs::Pieces::quoted))]
    fn push_escaped(&mut self, text: &str) -> Result<(), AllocError>
        ensures { OnOk result (self.new ≡ self.old ++ quoted text.now) }
    {
        let value = Value::String(String::from_str(self.alloc, text)?);
        self.push(&value.to_string(self.alloc)?)
    }

    // Offers the line to a sink as one piece, and what a call leaves of it again.
    fn offer<K: Sink>(&self, out: &mut K) -> Result<(), ReportError>
        ensures written { Writes K.held K.faults out.old out.new self.now result }
        ensures pieces { OffersPiece K.Offered out.old out.new self.now result }
    {
        write_whole(&self.bytes, out)
    }

    /// Offers the line that was to be made to a sink, as one piece, and what a call leaves of it again. Where memory was
    /// wanting to make it nothing is offered.
    pub fn offer_made<K: Sink>(
        &self,
        made: Result<(), AllocError>,
        out: &mut K,
    ) -> Result<(), ReportError>
        ensures { OffersMade K.held K.faults K.Offered out.old out.new made self.now result }
    {
        match made {
            Ok(()) => self.offer(out),
            Err(_) => Err(ReportError::Memory),
        }
    }
}
