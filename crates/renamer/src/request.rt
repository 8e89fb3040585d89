//! What the words of the command line ask for.
ghost use Rattle.std.specs.Prelude.{◌≡◌, option_map};
ghost use Rattle.std.specs.Char.{is_ascii_digit};
ghost use Rattle.std.specs.List.{list_all};
ghost use Rattle.renamer.specs.Requests.{asked_in_request, has_leading_zero, is_plain_number, request_of, symbol_number};

use semantic_syntax::SymbolId;

/// What is asked for: that this symbol gets this name.
#[derive(Clone, Copy)]
pub(crate) struct Request<'a> {
    pub symbol: SymbolId,
    pub name: &'a str,
}

/// Whether a zero stands before other digits.
fn has_leading_zero(digits: &[u8]) -> bool
    ensures { result ≡ has_leading_zero digits.now }
{
    digits.len() > 1 && digits[0] == b'0'
}

fn are_digits(bytes: &[u8]) -> bool
    ensures { result ≡ list_all is_ascii_digit bytes.now }
{
    bytes.iter().all(|byte| byte.is_ascii_digit())
}

/// Whether the word is a number in decimal, without a sign and without a zero before other digits.
fn is_plain_number(word: &str) -> bool
    ensures { result ≡ is_plain_number word.now }
{
    let digits = word.as_bytes();
    if digits.is_empty() || has_leading_zero(digits) {
        return false;
    }
    are_digits(digits)
}

/// The symbol whose number the word is.
fn read_symbol(word: &str) -> Option<SymbolId>
    ensures { result ≡ symbol_number word.now }
{
    if !is_plain_number(word) {
        return None;
    }
    let Ok(number) = word.parse::<u32>() else {
        return None;
    };
    if number == u32::MAX {
        return None;
    }
    Some(SymbolId::new(number))
}

/// What the words ask for, or none where they aren't the number of a symbol and a name.
pub(crate) fn read_words(words: &[String]) -> Option<Request<'_>>
    ensures { option_map asked_in_request result ≡ request_of words.now }
{
    let [number, name] = words else {
        return None;
    };
    let symbol = read_symbol(number)?;
    Some(Request { symbol, name })
}
