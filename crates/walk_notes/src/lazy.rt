//! The declarations past which a block function doesn't move, collected once they are asked for.

ghost use Rattle.std.specs.Prelude.{◌≡◌, IfOk};
ghost use Rattle.std.specs.Str.{chars};
ghost use Rattle.walk_model.specs.WrittenNames.{is_written};
ghost use Rattle.walk_notes.specs.WrittenNames.{barring};

use crate::namesakes::Namesakes;
use semantic_syntax::{Ident, NodeId};
use semantic_tree::Program;
use std::alloc::{AllocError, Global};
use std::marker::Model;

/// The namesakes of a program. The first question collects them all, and the later ones look them up: where no block
/// function passes a scope, nobody asks, and the program isn't gone over. Contracts see the names, collected or not.
#[derive(Drop)]
pub struct LazyNamesakes<'a> {
    alloc: Global,
    program: &'a Program,
    collected: Option<Namesakes>,
}

impl<'a> Model for LazyNamesakes<'a> {
    ghost use Rattle.std.specs.Prelude.{List, IfSome};
    ghost use Rattle.std.specs.Coded.{codes};
    ghost use Rattle.walk_model.specs.WrittenNames.{WrittenName};
    ghost use Rattle.walk_notes.specs.WrittenNames.{barring, HoldsNames};

    ghost Value = { List WrittenName };

    ghost coded = { Prim.hlevel (codes) };

    ghost view = { λ s. barring s.program.now };

    ghost invariant = { λ s. IfSome s.collected (HoldsNames (barring s.program.now)) };
}

impl<'a> LazyNamesakes<'a> {
    /// Those of a program, of which none is collected yet.
    pub fn new(alloc: Global, program: &'a Program) -> LazyNamesakes<'a>
        ensures { result ≡ barring program.now }
    {
        LazyNamesakes {
            alloc,
            program,
            collected: None,
        }
    }

    /// Whether the scope that the node opens has such a declaration of the name. The first question takes time linear in
    /// the program's nodes, each later one that of a look-up. The only error is want of memory.
    pub fn has(&mut self, opener: NodeId, name: Ident<'_>) -> Result<bool, AllocError>
        ensures stays { self.new ≡ self.old }
        ensures has { IfOk result (λ has. has
            ≡ is_written self.old opener (chars name.entry.text.now)) }
    {
        if let Some(namesakes) = &self.collected {
            return Ok(namesakes.has(opener, name));
        }
        let namesakes = Namesakes::of(self.alloc, self.program)?;
        let has = namesakes.has(opener, name);
        self.collected = Some(namesakes);
        Ok(has)
    }
}
