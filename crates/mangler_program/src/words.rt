//! What the words of the command line ask for.
ghost use Rattle.std.specs.Prelude.{◌≡◌, option_map};
ghost use Rattle.mangler.specs.Changing.{options_of};
ghost use Rattle.mangler_program.specs.Words.{asked_by};

use mangler::MangleOptions;

/// What the words ask for: nothing, or that the variables of a script change too. Other words ask for nothing that is known.
pub(crate) fn read_words(words: &[String]) -> Option<MangleOptions>
    ensures { option_map options_of result ≡ asked_by words.now }
{
    match words {
        [] => Some(MangleOptions { toplevel: false }),
        [word] => {
            if word.as_str() == "--toplevel" {
                Some(MangleOptions { toplevel: true })
            } else {
                None
            }
        }
        _ => None,
    }
}
