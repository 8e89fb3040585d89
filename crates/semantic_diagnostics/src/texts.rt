//! Texts of messages and labels.
ghost use Rattle.std.specs.Prelude.{◌≡◌, [], ◌∷◌, IsTrue, IfOk};
ghost use Rattle.std.specs.List.{concat};
ghost use Rattle.std.specs.Str.{chars};
ghost use Rattle.semantic_kinds.specs.Ascii.{is_ascii};

use semantic_syntax::Text;
use std::alloc::{AllocError, Global};

/// A fixed text.
#[tactic(auto, using(crate::proofs::AsciiTexts::ascii_texts))]
pub fn fixed(alloc: Global, text: &str) -> Result<Text, AllocError>
    requires { IsTrue (is_ascii text.now) }
    ensures { IfOk result (λ made. made ≡ text.now) }
{
    Text::new(alloc, text)
}

/// A name between two fixed texts.
#[tactic(auto, using(crate::proofs::AsciiTexts::ascii_texts))]
pub fn around(alloc: Global, before: &str, name: &str, after: &str) -> Result<Text, AllocError>
    requires before { IsTrue (is_ascii before.now) }
    requires after { IsTrue (is_ascii after.now) }
    ensures { IfOk result (λ made. made ≡ concat (before.now ∷ chars name.now ∷ after.now ∷ [])) }
{
    let text = format!(in alloc; "{before}{name}{after}")?;
    Text::new(alloc, text.as_str())
}

/// A fixed word between two fixed texts.
#[tactic(auto, using(crate::proofs::AsciiTexts::ascii_texts))]
pub fn around_word(alloc: Global, before: &str, word: &str, after: &str) -> Result<Text, AllocError>
    requires before { IsTrue (is_ascii before.now) }
    requires word { IsTrue (is_ascii word.now) }
    requires after { IsTrue (is_ascii after.now) }
    ensures { IfOk result (λ made. made ≡ concat (before.now ∷ word.now ∷ after.now ∷ [])) }
{
    around(alloc, before, word, after)
}
