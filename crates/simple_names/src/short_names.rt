//! Short names by number: `a`, `b`, .. `z`, `A`, .. `Z`, `_`, `$`, and then those of two characters.
ghost use Rattle.std.specs.Prelude.{◌≡◌, ◌<◌, ◌++◌, [], ◌∷◌, string_bytes, IfOk, OnOk};
ghost use Rattle.std.specs.Str.{chars};
ghost use Rattle.mangle_model.specs.ShortNames.{character, further, short_name};

use std::alloc::{AllocError, Global};

/// How many characters may begin a name.
const FIRST: usize = 54;

/// How many may go on.
const ALL: usize = 64;

/// The character of this number.
fn character(number: u8) -> u8
    requires { number < 64 }
    ensures { result ≡ character number }
{
    if number < 26 {
        b'a' + number
    } else if number < 52 {
        b'A' + (number - 26)
    } else if number == 52 {
        b'_'
    } else if number == 53 {
        b'$'
    } else {
        b'0' + (number - 54)
    }
}

/// Adds the character of this number.
fn push_character(name: &mut String, number: u8) -> Result<(), AllocError>
    requires { number < 64 }
    ensures { OnOk result (chars (string_bytes name.new)
        ≡ chars (string_bytes name.old) ++ character number ∷ []) }
{
    name.push(char::from(character(number)))
}

/// Adds the characters behind the first. For want of memory some may be added.
fn push_further(name: &mut String, number: usize) -> Result<(), AllocError>
    ensures { OnOk result (chars (string_bytes name.new)
        ≡ chars (string_bytes name.old) ++ further number number) }
{
    let mut rest = number;
    while rest > 0 {
        let place = rest - 1;
        push_character(name, (place % ALL) as u8)?;
        rest = place / ALL;
    }
    Ok(())
}

/// The short name of this number.
pub fn short_name(alloc: Global, number: usize) -> Result<String, AllocError>
    ensures { IfOk result (λ name. chars (string_bytes name) ≡ short_name number) }
{
    let mut name = String::new(alloc);
    push_character(&mut name, (number % FIRST) as u8)?;
    push_further(&mut name, number / FIRST)?;
    Ok(name)
}
