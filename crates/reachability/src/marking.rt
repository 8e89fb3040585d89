//! Numbers that are marked, each once, in order of marking.

ghost use Rattle.std.specs.Prelude.{◌≡◌, ◌<◌, [], false, length, slice_index, All, IfOk, OnOk, replicate};
ghost use Rattle.reachability.specs.Marked.{with_number_marked, with_numbers_marked};

use std::alloc::{AllocError, Global};
use std::marker::Model;

/// A mark for each number below a bound, and the marked numbers in order of marking.
#[derive(Drop)]
pub struct Marking {
    marks: Vec<bool>,
    list: Vec<u32>,
}

impl Model for Marking {
    ghost use Rattle.std.specs.Coded.{codes};
    ghost use Rattle.reachability.specs.Marked.{Marked};

    ghost Value = { Marked };

    ghost coded = { Prim.hlevel codes };

    ghost view = { λ m. record { marks = m.marks.items; list = m.list.items } };
}

impl Marking {
    /// No number below the bound is marked.
    pub fn new(alloc: Global, bound: usize) -> Result<Marking, AllocError>
        ensures { IfOk result (λ made. made ≡ record { marks = replicate bound false; list = [] }) }
    {
        Ok(Marking {
            marks: vec![in alloc; false; bound]?,
            list: Vec::new(alloc),
        })
    }

    /// How many are marked.
    pub fn len(&self) -> usize
        ensures { result ≡ length self.now.list }
    {
        self.list.len()
    }

    /// The number at a position in the order of marking.
    pub fn at(&self, place: usize) -> u32
        requires { place < length self.now.list }
        ensures { result ≡ slice_index self.now.list place }
    {
        self.list[place]
    }

    /// The mark of each number.
    pub fn into_marks(self) -> Vec<bool>
        ensures { result.items ≡ self.marks }
    {
        self.marks
    }

    /// Marks a number, unless it is marked.
    pub fn mark(&mut self, a: u32) -> Result<(), AllocError>
        requires { a < length self.old.marks }
        ensures ok { OnOk result (self.new ≡ with_number_marked self.old a) }
    {
        if !self.marks[a as usize] {
            self.list.push(a)?;
            self.marks[a as usize] = true;
        }
        Ok(())
    }

    /// Marks numbers, in order.
    pub fn mark_all(&mut self, new: &[u32]) -> Result<(), AllocError>
        requires { All (λ a. a < length self.old.marks) new.now }
        ensures ok { OnOk result (self.new ≡ with_numbers_marked self.old new.now) }
    {
        for a in new {
            self.mark(*a)?;
        }
        Ok(())
    }
}
