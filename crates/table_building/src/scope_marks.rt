//! Marks of scopes.

ghost use Rattle.std.specs.Prelude.{◌≡◌, ◌<◌, [], length, true, false, slice_index_or, OnOk};
ghost use Rattle.table_building.specs.Marked.{KeepsMarks};

use semantic_syntax::ScopeId;
use std::alloc::{AllocError, Global};
use std::marker::Model;

/// Which scopes are marked. Those past the end are not.
#[derive(Drop)]
pub struct ScopeMarks {
    marks: Vec<bool>,
}

impl Model for ScopeMarks {
    ghost use Rattle.std.specs.Prelude.{List, Bool};

    ghost Value = { List Bool };

    ghost view = { λ a. a.marks.items };
}

/// Makes room for the mark at the position. No mark changes.
fn make_room(marks: &mut Vec<bool>, position: usize) -> Result<(), AllocError>
    requires { position < 4294967296 }
    ensures kept { KeepsMarks marks.old.items marks.new.items }
    ensures room { OnOk result (position < length marks.new.items) }
{
    if position >= marks.len() {
        marks.resize(position + 1, false)?;
    }
    Ok(())
}

impl ScopeMarks {
    /// No scope is marked.
    pub fn new(alloc: Global) -> ScopeMarks
        ensures { result ≡ [] }
    {
        ScopeMarks {
            marks: Vec::new(alloc),
        }
    }

    /// Whether the scope is marked.
    pub fn has(&self, scope: ScopeId) -> bool
        ensures { result ≡ slice_index_or self.now scope false }
    {
        match self.marks.get(scope.index()) {
            Some(mark) => *mark,
            None => false,
        }
    }

    /// Marks the scope. The others keep their marks, also after want of memory.
    pub fn mark(&mut self, scope: ScopeId) -> Result<(), AllocError>
        ensures kept { KeepsMarks self.old self.new }
        ensures marked { OnOk result (slice_index_or self.new scope false ≡ true) }
    {
        let position = scope.index();
        make_room(&mut self.marks, position)?;
        self.marks[position] = true;
        Ok(())
    }
}
