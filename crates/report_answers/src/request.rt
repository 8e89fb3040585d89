//! What the words of the command line ask for.
ghost use Rattle.std.specs.Prelude.{◌≡◌, ◌≤◌, length, IfSome};
ghost use Rattle.report_answers.specs.Requests.{asking, request_of, count_of, digits_from};
ghost use Rattle.report_answers.specs.Report.{options_of};

use crate::options::Options;
use crate::word::Word;

/// What is asked for: early errors, lines on nodes, on classes and on counts, and a script of so many parts that is made
/// in place of one that is read.
#[derive(Clone, Copy, Debug, PartialEq, Eq)]
pub struct Request {
    pub check: bool,
    pub nodes: bool,
    pub classes: bool,
    pub stats: bool,
    pub make: Option<u32>,
}

impl Request {
    /// What the report tells besides.
    pub fn options(self) -> Options
        ensures { result ≡ options_of self }
    {
        Options {
            nodes: self.nodes,
            classes: self.classes,
            stats: self.stats,
        }
    }
}

// Takes a word without a number into account.
fn asking(request: Request, word: Word) -> Request
    ensures { result ≡ asking word request }
{
    let mut next = request;
    match word {
        Word::Check => next.check = true,
        Word::Nodes => next.nodes = true,
        Word::Classes => next.classes = true,
        Word::Stats => next.stats = true,
        Word::Make => {}
    }
    next
}

// The number that the digits say, or none where one isn't a digit.
fn read_digits(digits: &[u8]) -> Option<u32>
    requires { length digits.now ≤ 6 }
    ensures { result ≡ digits_from 0 digits.now }
{
    let mut value = 0;
    for digit in digits {
        if *digit < b'0' || *digit > b'9' {
            return None;
        }
        value = 10 * value + u32::from(*digit - b'0');
    }
    Some(value)
}

// A count from 1 to 100,000, in one to six digits without a leading zero.
fn read_count(word: &str) -> Option<u32>
    ensures count { result ≡ count_of word.now }
    ensures most { IfSome result (λ count. count ≤ 100000) }
{
    let digits = word.as_bytes();
    if digits.is_empty() || digits.len() > 6 || digits[0] == b'0' {
        return None;
    }
    read_digits(digits).filter(|count| *count <= 100_000)
}

/// What the words ask for, or none where one isn't known, or a number is missing or not so written. The last number
/// counts.
pub fn read_words(words: &[String]) -> Option<Request>
    ensures request { result ≡ request_of words.now }
    ensures most { IfSome result (λ request. IfSome request.make (λ count. count ≤ 100000)) }
{
    let mut request = Request {
        check: false,
        nodes: false,
        classes: false,
        stats: false,
        make: None,
    };
    let mut rest = words;
    while let Some((text, others)) = rest.split_first() {
        rest = others;
        let word = Word::of(text)?;
        if word.takes_number() {
            let (number, others) = rest.split_first()?;
            request.make = Some(read_count(number)?);
            rest = others;
            continue;
        }
        request = asking(request, word);
    }
    Some(request)
}
