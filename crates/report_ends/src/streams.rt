// Whole inputs and whole texts, over any source and any sink.
ghost use Rattle.std.specs.Prelude.{IfOk, OnOk, IfErr, ◌≡◌};
ghost use Rattle.report_ends.specs.Causes.{Rose};
ghost use Rattle.report_ends.specs.Offers.{OffersPiece};
ghost use Rattle.report_ends.specs.Streams.{ReadCause, ReadKeeps, IsReadWhole, HadMoreThan, HadAtMost, Writes};

use crate::{ReportError, Sink, Source};
use std::alloc::Global;

/// The most bytes that an input may have.
pub const INPUT_LIMIT: usize = 67_108_864;

// How many bytes are asked for at once.
const PIECE: usize = 8192;

/// Reads the whole input. It answers `Read` where a call on the source failed, `TooLong` where the input is longer than
/// `INPUT_LIMIT` bytes, and `Memory`. Some bytes are gone from the source then.
pub fn read_input<S: Source>(alloc: Global, source: &mut S) -> Result<Vec<u8>, ReportError>
    ensures whole { IfOk result
        (λ bytes. IsReadWhole (S.left source.old) (S.left source.new) bytes.items) }
    ensures fits { OnOk result (HadAtMost INPUT_LIMIT (S.left source.old)) }
    ensures cause { IfErr result
        (ReadCause (Rose (S.faults source.old) (S.faults source.new))
        (HadMoreThan INPUT_LIMIT (S.left source.old))) }
    ensures kept { ReadKeeps (S.faults source.new ≡ S.faults source.old) result }
{
    let mut bytes = Vec::new(alloc);
    let mut piece = [0u8; PIECE];
    loop {
        let count = source.read(&mut piece)?;
        if count == 0 {
            return Ok(bytes);
        }
        if count > INPUT_LIMIT - bytes.len() {
            return Err(ReportError::TooLong);
        }
        bytes.extend_from_slice(&piece[..count])?;
    }
}

/// Offers a piece, and what a call leaves of it again. It answers `Write` where a call on the sink failed, or took
/// nothing, and `Memory`. The sink has taken a prefix of the piece then.
#[tactic(auto, using(crate::proofs::Growth::wrote_more, crate::proofs::Growth::wrote_all, crate::proofs::Growth::wrote_nothing, crate::proofs::Offering::offered_nothing, crate::proofs::Offering::offered_again, crate::proofs::Offering::offered_all, crate::proofs::Offering::offered_in_vain))]
pub fn write_whole<K: Sink>(piece: &[u8], out: &mut K) -> Result<(), ReportError>
    ensures written { Writes K.held K.faults out.old out.new piece.now result }
    ensures pieces { OffersPiece K.Offered out.old out.new piece.now result }
{
    let mut taken = 0;
    while taken < piece.len() {
        let count = out.write(&piece[taken..])?;
        if count == 0 {
            return Err(ReportError::Write);
        }
        taken += count;
    }
    Ok(())
}
