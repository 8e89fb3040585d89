//! The walk that finds which numbers lead to a ring.

ghost use Rattle.std.specs.Prelude.{◌≡◌, ◌<◌, ◌≤◌, ◌∷◌, [], ℕ, true, length, map, reverse, replicate, All, IfOk, OnOk, IfSome, IfNone};
ghost use Rattle.reachability.specs.Rows.{row, lists, AreWithin};
ghost use Rattle.reachability.specs.Marked.{is_marked};
ghost use Rattle.link_search.specs.Steps.{LeadsToRing};
ghost use Rattle.link_search.specs.Walked.{mark_of, is_new, is_ring, turns, enter_tasks, number_entered, any_turns, number_left};
ghost use Rattle.link_search.specs.Keeping.{Keeps, Turned, Finished};
ghost use Rattle.link_search.specs.declared.rings.Mark.TheVariants.{New};
ghost use Rattle.link_search.specs.declared.rings.Task.TheVariants.{Enter};

use reachability::row;
use std::alloc::{AllocError, Global};
use std::marker::Model;

// How far the walk is with a number.
#[derive(Clone, Copy)]
pub enum Mark {
    // It wasn't entered.
    New,
    // The walk isn't back from it.
    Open,
    // The walk is back from it, and found no ring.
    Straight,
    // The walk is back from it, and found a ring.
    Ring,
}

impl Mark {
    fn is_new(self) -> bool
        ensures { result ≡ is_new self }
    {
        matches!(self, Mark::New)
    }

    fn turns(self) -> bool
        ensures { result ≡ turns self }
    {
        matches!(self, Mark::Open | Mark::Ring)
    }

    fn is_ring(self) -> bool
        ensures { result ≡ is_ring self }
    {
        matches!(self, Mark::Ring)
    }
}

// What the walk is to do.
#[derive(Clone, Copy)]
pub enum Task {
    Enter(u32),
    Leave(u32),
}

// A walk from number to number, which enters each number once.
#[derive(Drop)]
struct Walk {
    marks: Vec<Mark>,
    tasks: Vec<Task>,
}

impl Model for Walk {
    ghost use Rattle.std.specs.Prelude.{reverse};
    ghost use Rattle.std.specs.Coded.{codes};
    ghost use Rattle.link_search.specs.Walked.{Walked};
    ghost use Rattle.link_search.specs.contracts.rings.Mark as mark;
    ghost use Rattle.link_search.specs.contracts.rings.Task as task;

    ghost Value = { Walked };

    ghost coded = { Prim.hlevel (codes, mark.the_row.coded, task.the_row.coded) };

    ghost view = { λ w. record { marks = w.marks.items; tasks = reverse w.tasks.items } };
}

impl Walk {
    // No number was entered.
    fn new(alloc: Global, bound: usize) -> Result<Walk, AllocError>
        ensures { IfOk result (λ made. made ≡ record { marks = replicate bound New; tasks = [] }) }
    {
        Ok(Walk {
            marks: vec![in alloc; Mark::New; bound]?,
            tasks: Vec::new(alloc),
        })
    }

    // A number is to be entered next.
    fn go_to(&mut self, a: u32) -> Result<(), AllocError>
        ensures ok { OnOk result (self.new ≡ record self.old { tasks = Enter a ∷ self.old.tasks }) }
    {
        self.tasks.push(Task::Enter(a))?;
        Ok(())
    }

    // What is to be done next, if anything is.
    fn next(&mut self) -> Option<Task>
        ensures some { IfSome result
            (λ task. self.old ≡ record self.new { tasks = task ∷ self.new.tasks }) }
        ensures none { IfNone result (self.old.tasks ≡ []) }
        ensures kept { IfNone result (self.new ≡ self.old) }
    {
        self.tasks.pop()
    }

    // Whether a number wasn't entered.
    fn is_new(&self, a: u32) -> bool
        requires { a < length self.now.marks }
        ensures { result ≡ is_new (mark_of self.now.marks a) }
    {
        self.marks[a as usize].is_new()
    }

    // The numbers are to be entered, the last one next.
    fn go_to_all(&mut self, numbers: &[u32]) -> Result<(), AllocError>
        ensures ok { OnOk result
            (self.new ≡ record self.old { tasks = enter_tasks numbers.now self.old.tasks }) }
    {
        for b in numbers {
            self.go_to(*b)?;
        }
        Ok(())
    }

    // Enters a number, whose row is given.
    fn enter(&mut self, a: u32, row: &[u32]) -> Result<(), AllocError>
        requires { a < length self.old.marks }
        ensures ok { OnOk result (self.new ≡ number_entered self.old a row.now) }
    {
        self.marks[a as usize] = Mark::Open;
        self.tasks.push(Task::Leave(a))?;
        self.go_to_all(row)
    }

    // Whether one of the numbers is open, or leads to a ring.
    fn any_turns(&self, numbers: &[u32]) -> bool
        requires { All (λ b. b < length self.now.marks) numbers.now }
        ensures { result ≡ any_turns self.now.marks numbers.now }
    {
        for b in numbers {
            if self.marks[*b as usize].turns() {
                return true;
            }
        }
        false
    }

    // Leaves a number, whose row is given. What it leads to was entered, so an open one closes a ring.
    fn leave(&mut self, a: u32, row: &[u32])
        requires number { a < length self.old.marks }
        requires row { All (λ b. b < length self.old.marks) row.now }
        ensures { self.new ≡ number_left self.old a row.now }
    {
        self.marks[a as usize] = if self.any_turns(row) {
            Mark::Ring
        } else {
            Mark::Straight
        };
    }

    // Does a task.
    fn turn(&mut self, rows: &[Vec<u32>], task: Task) -> Result<(), AllocError>
        requires rows { AreWithin (length rows.now) (lists rows.now) }
        requires keeps { Keeps (lists rows.now) (length rows.now)
            (record self.old { tasks = task ∷ self.old.tasks }) }
        ensures ok { OnOk result
            (Turned (lists rows.now) (length rows.now)
            (record self.old { tasks = task ∷ self.old.tasks }) self.new) }
    {
        match task {
            Task::Enter(a) => {
                if self.is_new(a) {
                    self.enter(a, row(rows, a))?;
                }
            }
            Task::Leave(a) => self.leave(a, row(rows, a)),
        }
        Ok(())
    }

    // Walks from a number to all that it leads to.
    fn walk_from(&mut self, rows: &[Vec<u32>], start: u32) -> Result<(), AllocError>
        requires rows { AreWithin (length rows.now) (lists rows.now) }
        requires start { start < length rows.now }
        requires keeps { Keeps (lists rows.now) (length rows.now) self.old }
        requires done { self.old.tasks ≡ [] }
        ensures ok { OnOk result
            (Finished (lists rows.now) (length rows.now) self.old start self.new) }
    {
        self.go_to(start)?;
        while let Some(task) = self.next() {
            self.turn(rows, task)?;
        }
        Ok(())
    }

    // Which numbers lead to a ring, by their marks.
    fn flags(&self, alloc: Global) -> Result<Vec<bool>, AllocError>
        ensures { IfOk result (λ flags. flags.items ≡ map is_ring self.now.marks) }
    {
        let mut flags = Vec::new(alloc);
        for mark in &self.marks {
            flags.push(mark.is_ring())?;
        }
        Ok(flags)
    }
}

/// Which numbers lead to one that leads to itself. Each number is entered once and its row read twice, so it takes time
/// linear in the rows, for all numbers together.
pub fn leading_to_rings(alloc: Global, rows: &[Vec<u32>]) -> Result<Vec<bool>, AllocError>
    requires rows { AreWithin (length rows.now) (lists rows.now) }
    requires few { length rows.now ≤ 4294967295 }
    ensures length { IfOk result (λ flags. length flags.items ≡ length rows.now) }
    ensures sound { IfOk result
        (λ flags. (a : ℕ) → is_marked flags.items a ≡ true → LeadsToRing (lists rows.now) a) }
    ensures complete { IfOk result
        (λ flags. (a : ℕ) → a < length rows.now → LeadsToRing (lists rows.now) a
        → is_marked flags.items a ≡ true) }
{
    let mut walk = Walk::new(alloc, rows.len())?;
    for start in 0..rows.len() as u32 {
        walk.walk_from(rows, start)?;
    }
    walk.flags(alloc)
}
