//! Reads a request.
ghost use Rattle.std.specs.Prelude.{◌≡◌, ◌<◌, length, take, IfOk, OnOk, IfErr, IfSome, None};
ghost use Rattle.report_ends.specs.Causes.{Rose};
ghost use Rattle.serving.specs.Reads.{ReadUpTo, ReadJust, NumberRead, ReadBehind, MayBeRead, IsShort, IsCutNumber, IsCutBehind, IsCut, IsTooMuch, IsTooLongBehind, IsTooLong, ReadCause};
ghost use Rattle.serving.specs.Requests.{IsNumber};

use crate::fault::ServeFault;
use report_ends::{INPUT_LIMIT, Source};
use std::alloc::Global;

/// How many bytes are asked for at once.
const PIECE: usize = 65_536;

/// How many bytes a number has.
const NUMBER: usize = 8;

/// A request: its words, one a line, and its input.
#[derive(Drop)]
pub struct Request {
    pub text: Vec<u8>,
    pub input: Vec<u8>,
}

/// Reads so many bytes, or all that are left where these are fewer. Some are gone from the source after a fault.
fn read_up_to<S: Source>(alloc: Global, count: usize, source: &mut S) -> Result<Vec<u8>, ServeFault>
    ensures read { IfOk result (λ bytes.
        ReadUpTo count (S.left source.old) (S.left source.new) bytes.items) }
    ensures cause { IfErr result
        (ReadCause (Rose (S.faults source.old) (S.faults source.new)) ⊥ ⊥) }
    ensures kept { OnOk result (S.faults source.new ≡ S.faults source.old) }
{
    let mut bytes = Vec::new(alloc);
    let mut piece = [0u8; PIECE];
    while bytes.len() < count {
        let room = (count - bytes.len()).min(PIECE);
        let taken = source.read(&mut piece[..room])?;
        if taken == 0 {
            return Ok(bytes);
        }
        bytes.extend_from_slice(&piece[..taken])?;
    }
    Ok(bytes)
}

/// Reads just so many bytes: `TooLong` where these are more than an input may have, `Cut` where fewer are left.
fn read_just<S: Source>(alloc: Global, count: u64, source: &mut S) -> Result<Vec<u8>, ServeFault>
    ensures read { IfOk result (λ bytes.
        ReadJust count (S.left source.old) (S.left source.new) bytes.items) }
    ensures cause { IfErr result
        (ReadCause (Rose (S.faults source.old) (S.faults source.new))
        (IsShort count (S.left source.old) (S.left source.new))
        (IsTooMuch count (S.left source.old) (S.left source.new))) }
    ensures kept { OnOk result (S.faults source.new ≡ S.faults source.old) }
{
    if count > INPUT_LIMIT as u64 {
        return Err(ServeFault::TooLong);
    }
    let wanted = count as usize;
    let bytes = read_up_to(alloc, wanted, source)?;
    if bytes.len() < wanted {
        return Err(ServeFault::Cut);
    }
    Ok(bytes)
}

/// The number that stands in the bytes, if these are eight.
fn number_in(bytes: &[u8]) -> Option<u64>
    ensures number { IfSome result (λ n. IsNumber (take 8 bytes.now) n) }
    ensures none { result ≡ None → length bytes.now < 8 }
{
    let chunk = bytes.first_chunk::<NUMBER>()?;
    Some(u64::from_le_bytes(*chunk))
}

/// Reads a number, if anything is left.
fn read_number<S: Source>(alloc: Global, source: &mut S) -> Result<Option<u64>, ServeFault>
    ensures read { IfOk result (NumberRead (S.left source.old) (S.left source.new)) }
    ensures cause { IfErr result
        (ReadCause (Rose (S.faults source.old) (S.faults source.new))
        (IsCutNumber (S.left source.old) (S.left source.new)) ⊥) }
    ensures kept { OnOk result (S.faults source.new ≡ S.faults source.old) }
{
    let bytes = read_up_to(alloc, NUMBER, source)?;
    if bytes.is_empty() {
        return Ok(None);
    }
    match number_in(&bytes) {
        Some(number) => Ok(Some(number)),
        None => Err(ServeFault::Cut),
    }
}

/// Reads what a request has behind the length of its words.
fn read_behind<S: Source>(
    alloc: Global,
    text_length: u64,
    source: &mut S,
) -> Result<Request, ServeFault>
    ensures read { IfOk result (λ request.
        ReadBehind text_length (S.left source.old)
        (S.left source.new) request.text.items request.input.items) }
    ensures cause { IfErr result
        (ReadCause (Rose (S.faults source.old) (S.faults source.new))
        (IsCutBehind text_length (S.left source.old) (S.left source.new))
        (IsTooLongBehind text_length (S.left source.old) (S.left source.new))) }
    ensures kept { OnOk result (S.faults source.new ≡ S.faults source.old) }
{
    let Some(input_length) = read_number(alloc, source)? else {
        return Err(ServeFault::Cut);
    };
    let text = read_just(alloc, text_length, source)?;
    let input = read_just(alloc, input_length, source)?;
    Ok(Request { text, input })
}

/// Reads a request, if anything is left.
pub fn read_request<S: Source>(alloc: Global, source: &mut S) -> Result<Option<Request>, ServeFault>
    ensures read { IfOk result (MayBeRead (S.left source.old) (S.left source.new)) }
    ensures cause { IfErr result
        (ReadCause (Rose (S.faults source.old) (S.faults source.new))
        (IsCut (S.left source.old) (S.left source.new))
        (IsTooLong (S.left source.old) (S.left source.new))) }
    ensures kept { OnOk result (S.faults source.new ≡ S.faults source.old) }
{
    let Some(text_length) = read_number(alloc, source)? else {
        return Ok(None);
    };
    Ok(Some(read_behind(alloc, text_length, source)?))
}
