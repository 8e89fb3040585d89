//! Which terminals each number reaches.

ghost use Rattle.std.specs.Prelude.{◌≡◌, ◌<◌, ◌≤◌, ◌∷◌, ◌++◌, [], ℕ, length, map, replicate, All, IfOk, OnOk, IfSome, IfNone};
ghost use Rattle.reachability.specs.Rows.{row, lists, rows_from_pairs, AreWithin};
ghost use Rattle.link_search.specs.Reached.{AnswerTells, joined, absorbs, known_of, spread_raised, raised_all, with_ends, backward_from};
ghost use Rattle.link_search.specs.declared.terminals.Terminals.TheVariants.{Nowhere};

use reachability::{row, rows_of};
use std::alloc::{AllocError, Global};
use std::marker::Model;

/// The terminals that a number reaches.
#[derive(Clone, Copy, PartialEq, Eq, Debug)]
pub enum Terminals {
    /// It reaches none.
    Nowhere,
    /// It reaches this one alone.
    One(u32),
    /// It reaches two or more.
    Several,
}

impl Terminals {
    // Those of both.
    fn joined(self, other: Terminals) -> Terminals
        ensures { result ≡ joined self other }
    {
        match (self, other) {
            (Terminals::Nowhere, y) => y,
            (x, Terminals::Nowhere) => x,
            (Terminals::One(t), Terminals::One(u)) if t == u => Terminals::One(t),
            _ => Terminals::Several,
        }
    }

    // Whether it has all that the other has.
    fn absorbs(self, other: Terminals) -> bool
        ensures { result ≡ absorbs self other }
    {
        match (self, other) {
            (_, Terminals::Nowhere) => true,
            (Terminals::Several, _) => true,
            (Terminals::One(t), Terminals::One(u)) => t == u,
            _ => false,
        }
    }
}

// What is known of each number, and the numbers whose news are to be handed on.
#[derive(Drop)]
struct Spreading {
    values: Vec<Terminals>,
    news: Vec<u32>,
}

impl Model for Spreading {
    ghost use Rattle.std.specs.Prelude.{reverse};
    ghost use Rattle.std.specs.Coded.{codes};
    ghost use Rattle.link_search.specs.Reached.{Spread};
    ghost use Rattle.link_search.specs.contracts.terminals.Terminals as those;

    ghost Value = { Spread };

    ghost coded = { Prim.hlevel (codes, those.the_row.coded) };

    ghost view = { λ s. record { values = s.values.items; news = reverse s.news.items } };
}

impl Spreading {
    // Nothing is known.
    fn new(alloc: Global, bound: usize) -> Result<Spreading, AllocError>
        ensures { IfOk result (λ made. made
            ≡ record { values = replicate bound Nowhere; news = [] }) }
    {
        Ok(Spreading {
            values: vec![in alloc; Terminals::Nowhere; bound]?,
            news: Vec::new(alloc),
        })
    }

    // What is known of a number.
    fn value(&self, a: u32) -> Terminals
        requires { a < length self.now.values }
        ensures { result ≡ known_of self.now.values a }
    {
        self.values[a as usize]
    }

    // What is known of each number.
    fn into_values(self) -> Vec<Terminals>
        ensures { result.items ≡ self.values }
    {
        self.values
    }

    // The number whose news are handed on next, if there is one.
    fn next(&mut self) -> Option<u32>
        ensures some { IfSome result
            (λ a. self.old ≡ record self.new { news = a ∷ self.new.news }) }
        ensures none { IfNone result (self.old.news ≡ []) }
        ensures kept { IfNone result (self.new ≡ self.old) }
    {
        self.news.pop()
    }

    // A number reaches these, too.
    fn raise(&mut self, a: u32, reached: Terminals) -> Result<(), AllocError>
        requires { a < length self.old.values }
        ensures ok { OnOk result (self.new ≡ spread_raised self.old a reached) }
    {
        let before = self.values[a as usize];
        if !before.absorbs(reached) {
            self.news.push(a)?;
            self.values[a as usize] = before.joined(reached);
        }
        Ok(())
    }

    // Numbers reach these, too.
    fn raise_all(&mut self, numbers: &[u32], reached: Terminals) -> Result<(), AllocError>
        requires { All (λ a. a < length self.old.values) numbers.now }
        ensures ok { OnOk result (self.new ≡ raised_all self.old numbers.now reached) }
    {
        for a in numbers {
            self.raise(*a, reached)?;
        }
        Ok(())
    }

    // Numbers end in terminals.
    fn raise_ends(&mut self, ends: &[(u32, u32)]) -> Result<(), AllocError>
        requires { All (λ end. end.0 < length self.old.values) ends.now }
        ensures ok { OnOk result (self.new ≡ with_ends self.old ends.now) }
    {
        for (a, terminal) in ends {
            self.raise(*a, Terminals::One(*terminal))?;
        }
        Ok(())
    }
}

// Puts the steps of one row last, each backward.
fn add_backward(pairs: &mut Vec<(u32, u32)>, from: u32, row: &[u32]) -> Result<(), AllocError>
    ensures ok { OnOk result (pairs.new.items ≡ pairs.old.items ++ map (λ b. (b, from)) row.now) }
{
    for to in row {
        pairs.push((*to, from))?;
    }
    Ok(())
}

// Each step of all rows, backward.
fn backward_pairs(alloc: Global, rows: &[Vec<u32>]) -> Result<Vec<(u32, u32)>, AllocError>
    requires { length rows.now ≤ 4294967295 }
    ensures { IfOk result (λ pairs. pairs.items ≡ backward_from 0 (lists rows.now)) }
{
    let mut pairs = Vec::new(alloc);
    for from in 0..rows.len() as u32 {
        add_backward(&mut pairs, from, row(rows, from))?;
    }
    Ok(pairs)
}

/// Which terminals each number reaches in any number of steps, where the pairs say which number ends in which terminal.
/// What is known of a number changes at most twice, and is handed on to those that lead to it each time, so it takes time
/// linear in the rows and pairs, for all numbers together.
pub fn reached_terminals(
    alloc: Global,
    rows: &[Vec<u32>],
    ends: &[(u32, u32)],
) -> Result<Vec<Terminals>, AllocError>
    requires rows { AreWithin (length rows.now) (lists rows.now) }
    requires few { length rows.now ≤ 4294967295 }
    requires ends { All (λ end. end.0 < length rows.now) ends.now }
    ensures length { IfOk result (λ found. length found.items ≡ length rows.now) }
    ensures tells { IfOk result
        (λ found. (a : ℕ) → AnswerTells (lists rows.now) ends.now (known_of found.items a) a) }
{
    let pairs = backward_pairs(alloc, rows)?;
    let back = rows_of(alloc, rows.len(), pairs.as_slice())?;
    let mut spreading = Spreading::new(alloc, rows.len())?;
    spreading.raise_ends(ends)?;
    while let Some(b) = spreading.next() {
        let reached = spreading.value(b);
        spreading.raise_all(row(back.as_slice(), b), reached)?;
    }
    Ok(spreading.into_values())
}
