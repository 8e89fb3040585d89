//! What was found of names, and what it says of a target.
ghost use Rattle.std.specs.Prelude.{◌≡◌};
ghost use Rattle.link_search.specs.Answers.{answer_at, target_answer};

use crate::target::Target;
use crate::terminal::Terminal;
use crate::terminals::Terminals;
use indexmap::IndexSet;

/// What a target comes to.
#[derive(Clone, Copy, PartialEq, Eq, Debug)]
pub enum Found {
    /// It reaches no terminal, and no name that reaches itself.
    Missing,
    /// It reaches no terminal, but a name that reaches itself.
    Ring,
    /// It reaches this terminal alone.
    One(Terminal),
    /// It reaches terminals that differ.
    Ambiguous,
}

// What was found of the names that were met: which lead to a ring, and which terminals they reach, by number.
#[derive(Drop)]
pub(crate) struct Search {
    pub names: IndexSet<(u32, u32)>,
    pub to_rings: Vec<bool>,
    pub reached: Vec<Terminals>,
    pub terminals: IndexSet<Terminal>,
}

impl Search {
    // What the name with this number comes to.
    fn answer_at(&self, number: usize) -> Found
        ensures { result ≡ answer_at self.now number }
    {
        match self.reached.get(number) {
            Some(Terminals::One(terminal)) => match self.terminals.get_index(*terminal as usize) {
                Some(terminal) => Found::One(*terminal),
                None => Found::Missing,
            },
            Some(Terminals::Several) => Found::Ambiguous,
            _ => match self.to_rings.get(number) {
                Some(true) => Found::Ring,
                _ => Found::Missing,
            },
        }
    }

    // What a target comes to. A name that wasn't met is missing.
    pub fn answer(&self, target: &Target) -> Found
        ensures { result ≡ target_answer self.now target.now }
    {
        match target {
            Target::End(terminal) => Found::One(*terminal),
            Target::Name(module, name) => match self.names.get_index_of(&(*module, *name)) {
                Some(number) => self.answer_at(number),
                None => Found::Missing,
            },
        }
    }
}
