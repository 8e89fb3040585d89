//! Words that stand in one text.
ghost use Rattle.std.specs.Prelude.{◌≡◌, map, IfOk, string_bytes};
ghost use Rattle.std.specs.Str.Lines.{lines};

use std::alloc::{AllocError, Global};

fn lines_of(alloc: Global, text: &str) -> Result<Vec<&str>, AllocError>
    ensures { IfOk result (λ found. map (λ line. line.now) found.items ≡ lines text.now) }
{
    text.lines().collect(alloc)
}

fn owned(alloc: Global, lines: &[&str]) -> Result<Vec<String>, AllocError>
    ensures { IfOk result (λ words. map string_bytes words.items
        ≡ map (λ line. line.now) lines.now) }
{
    let mut words = Vec::with_capacity(alloc, lines.len())?;
    for line in lines {
        words.push(String::from_str(alloc, line)?)?;
    }
    Ok(words)
}

/// The words of a text, one a line.
pub fn words_of(alloc: Global, text: &str) -> Result<Vec<String>, AllocError>
    ensures { IfOk result (λ words. map string_bytes words.items ≡ lines text.now) }
{
    owned(alloc, &lines_of(alloc, text)?)
}
