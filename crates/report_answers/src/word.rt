//! The words of the command line.
ghost use Rattle.std.specs.Prelude.{◌≡◌};
ghost use Rattle.report_answers.specs.Requests.{word_text, takes_number, word_of};

/// A word of the command line.
#[derive(Clone, Copy, Debug, PartialEq, Eq)]
pub enum Word {
    Check,
    Nodes,
    Classes,
    Stats,
    Make,
}

const ALL: [Word; 5] = [
    Word::Check,
    Word::Nodes,
    Word::Classes,
    Word::Stats,
    Word::Make,
];

impl Word {
    /// How it is written.
    pub fn text(self) -> &'static str
        ensures { result.now ≡ word_text self }
    {
        match self {
            Word::Check => "--check",
            Word::Nodes => "--nodes",
            Word::Classes => "--classes",
            Word::Stats => "--stats",
            Word::Make => "--make",
        }
    }

    /// Whether a number follows it.
    pub fn takes_number(self) -> bool
        ensures { result ≡ takes_number self }
    {
        matches!(self, Word::Make)
    }

    /// The word that is so written, if there is one.
    pub fn of(text: &str) -> Option<Word>
        ensures { result ≡ word_of text.now }
    {
        ALL.iter().copied().find(|word| word.text() == text)
    }
}
