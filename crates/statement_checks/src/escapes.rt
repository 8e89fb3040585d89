//! Escapes that strict code doesn't have, found in the raw bytes of a string (ECMAScript 12.9.4.1).
ghost use Rattle.std.specs.Prelude.{◌≡◌, ◌<◌, ◌∷◌, false, length, option_map, IfSome};
ghost use Rattle.check_model.specs.Literals.{escapes, escapes_after};
ghost use Rattle.statement_checks.specs.BadEscapes.{kind_of_escape, kind_of_first, escapes_past, bytes_shown};

use memchr::memchr;

/// What is wrong with an escape.
#[derive(Clone, Copy, PartialEq, Eq, Debug)]
pub(crate) enum BadEscape {
    /// `\1` to `\7`, or `\0` before a digit (ECMAScript 12.9.4, LegacyOctalEscapeSequence).
    Octal,
    /// `\8` or `\9` (ECMAScript 12.9.4, NonOctalDecimalEscapeSequence).
    EightOrNine,
}

/// What is wrong with the escape of a byte, behind which others stand.
fn bad_escape(byte: u8, after: &[u8]) -> Option<BadEscape>
    ensures { result ≡ kind_of_escape (byte ∷ after.now) }
{
    match byte {
        b'1'..=b'7' => Some(BadEscape::Octal),
        b'0' => match after.first() {
            Some(digit) if digit.is_ascii_digit() => Some(BadEscape::Octal),
            _ => None,
        },
        b'8' | b'9' => Some(BadEscape::EightOrNine),
        _ => None,
    }
}

/// What stands behind the first backslash.
#[tactic(auto, using(crate::proofs::Skipped::skips))]
fn past_backslash(left: &[u8]) -> Option<&[u8]>
    ensures escapes { escapes_after false left.now ≡ escapes_past (option_map bytes_shown result) }
    ensures shorter { IfSome result (λ rest. length rest.now < length left.now) }
{
    match memchr(b'\\', left) {
        Some(at) => Some(&left[at + 1..]),
        None => None,
    }
}

/// The first bad escape among the raw bytes of a string, byte by byte.
#[tactic(auto, using(crate::proofs::FirstBad::steps))]
fn first_bad_by_bytes(raw: &[u8]) -> Option<BadEscape>
    ensures { result ≡ kind_of_first (escapes raw.now) }
{
    let mut left = raw;
    while let Some((byte, rest)) = left.split_first() {
        left = rest;
        if *byte == b'\\' {
            let Some((escaped, after)) = rest.split_first() else {
                return None;
            };
            if let Some(bad) = bad_escape(*escaped, after) {
                return Some(bad);
            }
            left = after;
        }
    }
    None
}

/// The same, by a search for backslashes.
#[tactic(auto, using(crate::proofs::FirstBad::steps))]
fn first_bad_by_search(raw: &[u8]) -> Option<BadEscape>
    ensures { result ≡ kind_of_first (escapes raw.now) }
{
    let mut left = raw;
    while let Some(rest) = past_backslash(left) {
        let Some((escaped, beyond)) = rest.split_first() else {
            return None;
        };
        if let Some(bad) = bad_escape(*escaped, beyond) {
            return Some(bad);
        }
        left = beyond;
    }
    None
}

/// From so many bytes on a search for backslashes is faster than a look at each byte.
const SEARCHED_FROM: usize = 16;

/// The first bad escape among the raw bytes of a string.
pub(crate) fn first_bad(raw: &[u8]) -> Option<BadEscape>
    ensures { result ≡ kind_of_first (escapes raw.now) }
{
    if raw.len() < SEARCHED_FROM {
        first_bad_by_bytes(raw)
    } else {
        first_bad_by_search(raw)
    }
}
