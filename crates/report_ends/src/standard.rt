// Ends over std's readers and writers, as standard input, output and error, which count their faults.
ghost use Rattle.std.specs.Prelude.{◌≡◌, ◌≤◌, OnOk, OnErr};
ghost use Rattle.std.specs.Io.KnownBytes.{Keeps, WriteAppends};
ghost use Rattle.report_ends.specs.Causes.{Rose};

use crate::{Failed, Sink, Source, WriteFault};
use std::io::{Read, Write};

/// A source over a reader, as standard input. It tells the bytes that the reader tells.
#[derive(Drop)]
pub struct Reading<R: Read> {
    reader: R,
    faults: u64,
}

impl<R: Read> Reading<R> {
    /// A source that hasn't failed yet.
    pub fn new(reader: R) -> Self
        ensures reader { result.reader ≡ reader }
        ensures faults { result.faults ≡ 0 }
    {
        Reading { reader, faults: 0 }
    }
}

impl<R: Read> Source for Reading<R> {
    ghost left = { λ s. R.remaining s.reader };

    ghost faults = { λ s. s.faults };

    fn read(&mut self, buf: &mut [u8]) -> Result<usize, Failed> {
        match self.reader.read(buf) {
            Ok(count) => Ok(count),
            Err(_) => {
                self.faults = self.faults.saturating_add(1);
                Err(Failed)
            }
        }
    }
}

/// A sink over a writer, as standard error, or over a buffer before one, as standard output. It tells the bytes that
/// the writer tells.
#[derive(Drop)]
pub struct Writing<W: Write> {
    writer: W,
    faults: u64,
}

impl<W: Write> Writing<W> {
    /// A sink that hasn't failed yet.
    pub fn new(writer: W) -> Self
        ensures writer { result.writer ≡ writer }
        ensures faults { result.faults ≡ 0 }
    {
        Writing { writer, faults: 0 }
    }

    /// Hands on what a buffered writer still keeps. It holds the same bytes then, also where this fails, which counts
    /// as a fault.
    pub fn flush(&mut self) -> Result<(), WriteFault>
        ensures bytes { Keeps (W.contents self.old.writer) (W.contents self.new.writer) }
        ensures cause { OnErr result (Rose self.old.faults self.new.faults) }
        ensures kept { OnOk result (self.new.faults ≡ self.old.faults) }
        ensures later { self.old.faults ≤ self.new.faults }
    {
        match self.writer.flush() {
            Ok(()) => Ok(()),
            Err(_) => {
                self.faults = self.faults.saturating_add(1);
                Err(WriteFault::Failed)
            }
        }
    }
}

impl<W: Write> Sink for Writing<W> {
    ghost held = { λ s. W.contents s.writer };

    ghost faults = { λ s. s.faults };

    ghost Offered = { λ old piece answer new. WriteAppends (W.contents old.writer) (W.contents new.writer) answer piece };

    fn write(&mut self, piece: &[u8]) -> Result<usize, WriteFault> {
        match self.writer.write(piece) {
            Ok(count) => {
                if count == 0 && !piece.is_empty() {
                    self.faults = self.faults.saturating_add(1);
                }
                Ok(count)
            }
            Err(_) => {
                self.faults = self.faults.saturating_add(1);
                Err(WriteFault::Failed)
            }
        }
    }
}
