//! The pieces of JSON that a reader hands out one after the other: numbers, strings and brackets.
ghost use Rattle.std.specs.Prelude.{◌≡◌, ◌<◌, ◌^◌, [], ◌∷◌, length, IfSome, OnSome};
ghost use Rattle.std.specs.Str.Parse.{IsNumeral, digits_value};
ghost use Rattle.json.specs.Token as token;
ghost use Rattle.tree_json.specs.Pulled.{PullsNumber};

use json::{Reader, Token};

/// The next value, if it is a whole number of 32 bits that is written by digits alone.
#[inline(always)]
pub(crate) fn take_number(reader: &mut Reader<'_>) -> Option<u32>
    ensures { IfSome result (λ n. PullsNumber reader.old n reader.new) }
{
    match reader.next()? {
        Token::Number(text) => number_of(text.as_bytes()),
        _ => None,
    }
}

/// The number that these digits are.
#[inline(always)]
fn number_of(digits: &[u8]) -> Option<u32>
    ensures { IfSome result (λ n. IsNumeral 10 digits.now × (n ≡ digits_value 10 digits.now)
        × (n < 2 ^ 32)) }
{
    if digits.is_empty() {
        return None;
    }
    let mut value: u32 = 0;
    for byte in digits {
        if *byte < b'0' || *byte > b'9' {
            return None;
        }
        value = value.checked_mul(10)?.checked_add((*byte - b'0') as u32)?;
    }
    Some(value)
}

/// The next value, if it is a string.
#[inline(always)]
pub(crate) fn take_string<'a>(reader: &mut Reader<'a>) -> Option<&'a str>
    ensures { IfSome result (λ s. reader.old ≡ token.string s.now ∷ reader.new) }
{
    match reader.next()? {
        Token::String(text) => Some(text),
        _ => None,
    }
}

/// Takes the bracket that opens an array.
#[inline(always)]
pub(crate) fn open_array(reader: &mut Reader<'_>) -> Option<()>
    ensures { OnSome result (reader.old ≡ token.begin_array ∷ reader.new) }
{
    match reader.next()? {
        Token::BeginArray => Some(()),
        _ => None,
    }
}

/// Takes the bracket that closes an array.
#[inline(always)]
pub(crate) fn close_array(reader: &mut Reader<'_>) -> Option<()>
    ensures { OnSome result (reader.old ≡ token.end_array ∷ reader.new) }
{
    match reader.next()? {
        Token::EndArray => Some(()),
        _ => None,
    }
}

/// Takes the brace that opens an object.
pub(crate) fn open_object(reader: &mut Reader<'_>) -> Option<()>
    ensures { OnSome result (reader.old ≡ token.begin_object ∷ reader.new) }
{
    match reader.next()? {
        Token::BeginObject => Some(()),
        _ => None,
    }
}

/// Takes the brace that closes an object, where the text ends.
pub(crate) fn close_text(reader: &mut Reader<'_>) -> Option<()>
    ensures { OnSome result (reader.old ≡ token.end_object ∷ []) }
{
    match reader.next()? {
        Token::EndObject => {}
        _ => return None,
    }
    match reader.next() {
        None => Some(()),
        Some(_) => None,
    }
}

/// Takes this key.
pub(crate) fn take_key(reader: &mut Reader<'_>, name: &str) -> Option<()>
    ensures { OnSome result (reader.old ≡ token.key name.now ∷ reader.new) }
{
    match reader.next()? {
        Token::Key(key) if key == name => Some(()),
        _ => None,
    }
}
