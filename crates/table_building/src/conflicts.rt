//! Names that are declared although they may not be, by the early errors on LexicallyDeclaredNames and
//! VarDeclaredNames (ECMAScript 14.2.1, 16.1.1, 16.2.1.1; TypeScript 2300, 2451).

ghost use Rattle.std.specs.Prelude.{◌≡◌, [], ◌∷◌, ◌++◌, length, map, drop, OnOk, OnErr};
ghost use Rattle.std.specs.Str.{chars};
ghost use Rattle.table_building.specs.Conflicting.{noted_conflict_diagnostic};

use semantic_diagnostics::Diagnostics;
use semantic_diagnostics::makers::names::redeclaration;
use semantic_syntax::Span;
use std::alloc::{AllocError, Global};
use std::marker::Model;

/// A name that is declared although it may not be: where its symbol is declared, and where it is declared again.
#[derive(Clone, Copy)]
pub struct Conflict<'a> {
    pub name: &'a str,
    pub earlier: Span,
    pub later: Span,
}

/// Conflicts in the order of their finding.
#[derive(Drop)]
pub struct Conflicts<'a> {
    entries: Vec<Conflict<'a>>,
}

impl<'a> Model for Conflicts<'a> {
    ghost use Rattle.std.specs.Prelude.{List, map};
    ghost use Rattle.semantic_model.specs.Fold.{Conflict};
    ghost use Rattle.table_building.specs.Conflicting.{conflict_of};

    ghost Value = { List Conflict };

    ghost view = { λ c. map conflict_of c.entries.items };
}

impl<'a> Conflicts<'a> {
    /// No conflict is found yet.
    pub fn new(alloc: Global) -> Conflicts<'a>
        ensures { result ≡ [] }
    {
        Conflicts {
            entries: Vec::new(alloc),
        }
    }

    /// Notes a conflict as the last one. After want of memory all is as before.
    pub fn push(&mut self, name: &'a str, earlier: Span, later: Span) -> Result<(), AllocError>
        ensures ok { OnOk result
            (self.new ≡ self.old
            ++ record { name = chars name.now; earlier = earlier; later = later } ∷ []) }
        ensures err { OnErr result (self.new ≡ self.old) }
    {
        let conflict = Conflict {
            name,
            earlier,
            later,
        };
        match self.entries.push(conflict) {
            Ok(()) => Ok(()),
            Err(_) => Err(AllocError),
        }
    }

    /// How many conflicts there are.
    pub fn len(&self) -> usize
        ensures { result ≡ length self.now }
    {
        self.entries.len()
    }

    /// Adds a diagnostic for each from a position on, at the end of the list.
    pub fn tell_from(
        &self,
        alloc: Global,
        from: usize,
        out: &mut Diagnostics,
    ) -> Result<(), AllocError>
        ensures { OnOk result (out.new
            ≡ out.old ++ map noted_conflict_diagnostic (drop from self.now)) }
    {
        let entries = self.entries.as_slice();
        let mut next = from;
        while let Some(conflict) = entries.get(next) {
            let diagnostic = redeclaration(alloc, conflict.name, conflict.earlier, conflict.later)?;
            out.push(diagnostic)?;
            next += 1;
        }
        Ok(())
    }
}
