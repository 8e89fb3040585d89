//! Answers requests, one behind the other.
ghost use Rattle.std.specs.Prelude.{◌≡◌, ◌<◌, ◌-◌, ◌^◌, ℕ, List, [], Some, IfOk, IfErr, OnOk, OnErr};
ghost use Rattle.report_ends.specs.Causes.{Rose};
ghost use Rattle.report_ends.specs.Memory.{sure_held};
ghost use Rattle.report_ends.specs.Offers.{OffersPiece};
ghost use Rattle.report_ends.specs.Streams.{AppendsPrefix};
ghost use Rattle.std.specs.Io.KnownBytes.{Appends};
ghost use Rattle.serving.specs.Requests.{Answer, IsAnswerTo, AreWhole, answer_bytes};
ghost use Rattle.serving.specs.Serving.{Turn, TookPart, ServedAll, ServedSome, AnswerCause, OfferCause, FaultCause};

use crate::answering::Answering;
use crate::fault::ServeFault;
use crate::reading::{Request, read_request};
use crate::words::words_of;
use report_ends::{ReportError, Sink, Source, SureSink, write_whole};
use std::alloc::{AllocError, Global};

/// How many requests one call answers at most.
pub const MOST_REQUESTS: u32 = u32::MAX;

/// Answers a request on empty sinks, and gives the status. It answers `Words` where the words aren't UTF-8, and `Memory`.
fn answer_on<A: Answering>(
    alloc: Global,
    answering: &A,
    request: Request,
    out: &mut SureSink,
    errs: &mut SureSink,
) -> Result<u8, ServeFault>
    requires out_empty { sure_held out.old ≡ [] }
    requires errs_empty { sure_held errs.old ≡ [] }
    ensures answer { IfOk result
        (λ status. IsAnswerTo (A.Answers answering.now) request.text.items request.input.items
        record { status = status; out = sure_held out.new; errs = sure_held errs.new }) }
    ensures fault { IfErr result (AnswerCause request.text.items) }
{
    let Request { text, input } = request;
    let Ok(told) = str::from_utf8(&text) else {
        return Err(ServeFault::Words);
    };
    let words = words_of(alloc, told)?;
    Ok(answering.answer(alloc, &words, input, out, errs))
}

/// The bytes of an answer.
fn bytes_of(alloc: Global, status: u8, out: &[u8], errs: &[u8]) -> Result<Vec<u8>, AllocError>
    ensures { IfOk result (λ bytes. bytes.items
        ≡ answer_bytes record { status = status; out = out.now; errs = errs.now }) }
{
    let mut bytes = Vec::new(alloc);
    bytes.extend_from_slice(&u64::from(status).to_le_bytes())?;
    bytes.extend_from_slice(&(out.len() as u64).to_le_bytes())?;
    bytes.extend_from_slice(&(errs.len() as u64).to_le_bytes())?;
    bytes.extend_from_slice(out)?;
    bytes.extend_from_slice(errs)?;
    Ok(bytes)
}

/// The bytes that answer a request.
fn answer_of<A: Answering>(
    alloc: Global,
    answering: &A,
    request: Request,
) -> Result<Vec<u8>, ServeFault>
    ensures answer { IfOk result
        (λ bytes. (answer : Answer)
        × IsAnswerTo (A.Answers answering.now) request.text.items request.input.items answer
        × (answer_bytes answer ≡ bytes.items)) }
    ensures fault { IfErr result (AnswerCause request.text.items) }
{
    let mut out = SureSink::new(alloc);
    let mut errs = SureSink::new(alloc);
    let status = answer_on(alloc, answering, request, &mut out, &mut errs)?;
    let bytes = bytes_of(alloc, status, out.held(), errs.held())?;
    Ok(bytes)
}

/// Offers the bytes of an answer as one piece.
fn offer<K: Sink>(bytes: &[u8], out: &mut K) -> Result<(), ServeFault>
    ensures whole { OnOk result (Appends (K.held out.old) (K.held out.new) bytes.now) }
    ensures part { OnErr result (AppendsPrefix (K.held out.old) (K.held out.new) bytes.now) }
    ensures fault { IfErr result (OfferCause (Rose (K.faults out.old) (K.faults out.new))) }
    ensures kept { OnOk result (K.faults out.new ≡ K.faults out.old) }
    ensures pieces { OffersPiece K.Offered out.old out.new bytes.now result }
{
    match write_whole(bytes, out) {
        Ok(()) => Ok(()),
        Err(ReportError::Memory) => Err(ServeFault::Memory),
        Err(_) => Err(ServeFault::Write),
    }
}

/// Answers the next request, or gives none where nothing is left.
fn serve_one<S: Source, K: Sink, A: Answering>(
    alloc: Global,
    answering: &A,
    source: &mut S,
    out: &mut K,
) -> Result<Option<()>, ServeFault>
    ensures turn { IfOk result (Turn K.Offered (A.Answers answering.now) (S.left source.old)
        (S.left source.new) (K.held out.old) (K.held out.new) out.old out.new) }
    ensures part { OnErr result (TookPart K.Offered (A.Answers answering.now) (S.left source.old)
        (S.left source.new) (K.held out.old) (K.held out.new) out.old out.new) }
    ensures fault { IfErr result
        (FaultCause (Rose (S.faults source.old) (S.faults source.new))
        (Rose (K.faults out.old) (K.faults out.new)) ⊥ (S.left source.old) (S.left source.new)) }
    ensures read_kept { OnOk result (S.faults source.new ≡ S.faults source.old) }
    ensures write_kept { OnOk result (K.faults out.new ≡ K.faults out.old) }
{
    let Some(request) = read_request(alloc, source)? else {
        return Ok(None);
    };
    let bytes = answer_of(alloc, answering, request)?;
    offer(&bytes, out)?;
    Ok(Some(()))
}

/// Answers the requests of a source, one behind the other, until nothing is left of it. A request is how long its words and
/// its input are, each in eight bytes, the least one first, and then both; the words stand one a line. An answer is the
/// status and how long the output and the line on errors are, and then both. Each answer is offered to `out` in one piece as
/// soon as its request is read, and all memory that it took is given back before the next one is read.
///
/// It stops at the first fault: `Cut` where the input ends within a request, `TooLong` where words or an input are longer
/// than `INPUT_LIMIT`, `Words` where words aren't UTF-8, `TooMany` behind `MOST_REQUESTS` requests, `Read`, `Write` and
/// `Memory`. All requests before are answered then, and `out` has a prefix of one answer more at most.
pub fn serve<S: Source, K: Sink, A: Answering>(
    alloc: Global,
    answering: &A,
    source: &mut S,
    out: &mut K,
) -> Result<(), ServeFault>
    ensures served { OnOk result
        (ServedAll K.Offered (A.Answers answering.now) (S.left source.old) (S.left source.new)
        (K.held out.old) (K.held out.new) out.old out.new) }
    ensures stopped { IfErr result
        (ServedSome K.Offered (A.Answers answering.now)
        (Rose (S.faults source.old) (S.faults source.new))
        (Rose (K.faults out.old) (K.faults out.new)) (S.left source.old) (S.left source.new)
        (K.held out.old) (K.held out.new) out.old out.new) }
    // Where the input is fewer whole requests than `MOST_REQUESTS`, and no end fails, all are answered, but for want of memory.
    ensures complete { (count : ℕ) (input : List ℕ) → count < 2 ^ 32 - 1
        → S.left source.old ≡ Some input → AreWhole count input
        → ¬ (Rose (S.faults source.old) (S.faults source.new))
        → ¬ (Rose (K.faults out.old) (K.faults out.new))
        → IfErr result (λ fault. fault ≡ ServeFault.Memory) }
{
    for _ in 0..MOST_REQUESTS {
        let Some(()) = serve_one(alloc, answering, source, out)? else {
            return Ok(());
        };
    }
    Err(ServeFault::TooMany)
}
