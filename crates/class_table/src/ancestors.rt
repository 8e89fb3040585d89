//! The way outward from a class.
ghost use Rattle.std.specs.Prelude.{◌≡◌, length};
ghost use Rattle.std.specs.Iterator.{at_most};
ghost use Rattle.std.specs.Map.Iter.{TakesFirst};
ghost use Rattle.class_table.specs.Outward.{StandBefore, parent_class, classes_outward};

use semantic_syntax::ClassId;
use std::collections::BTreeMap;
use std::marker::Model;

/// The class around a class, if there is one.
pub(crate) fn parent_of(parents: &BTreeMap<ClassId, ClassId>, c: ClassId) -> Option<ClassId>
    ensures { result ≡ parent_class parents.now.entries c }
{
    parents.get(&c).copied()
}

/// A class and those around it that are left, inner first. Contracts see their ids.
#[derive(Drop)]
pub struct ClassAncestors<'n> {
    parents: &'n BTreeMap<ClassId, ClassId>,
    next: Option<ClassId>,
}

impl<'n> Model for ClassAncestors<'n> {
    ghost use Rattle.std.specs.Prelude.{ℕ, List};
    ghost use Rattle.class_table.specs.Outward.{classes_outward_from, StandBefore};

    ghost Value = { List ℕ };

    ghost view = { λ a. classes_outward_from a.parents.now.entries a.next };

    ghost invariant = { λ a. StandBefore a.parents.now.entries };
}

impl<'n> ClassAncestors<'n> {
    /// The class first, by these parents.
    pub(crate) fn new(parents: &'n BTreeMap<ClassId, ClassId>, c: ClassId) -> ClassAncestors<'n>
        requires { StandBefore parents.now.entries }
        ensures { result ≡ classes_outward parents.now.entries c }
    {
        ClassAncestors {
            parents,
            next: Some(c),
        }
    }
}

impl<'n> Iterator for ClassAncestors<'n> {
    type Item = ClassId;

    ghost next_gives = { TakesFirst (λ s. s) };

    ghost remaining = { λ s. at_most (length s) };

    #[tactic(auto, using(crate::proofs::Parents::outward_steps))]
    fn next(&mut self) -> Option<ClassId> {
        let c = self.next?;
        self.next = parent_of(self.parents, c);
        Some(c)
    }
}
