//! Laws of the tables: each is the contract of a function that does nothing.

ghost use Rattle.std.specs.Prelude.{◌≡◌, Some, true, slice_get};
ghost use Rattle.semantic_kinds.specs.Kinds.{kind_name, kind_named, kind_number, all_kinds};
ghost use Rattle.semantic_kinds.specs.Roles.{role_name, role_named};
ghost use Rattle.semantic_kinds.specs.Marks.{mark_name, mark_named};
ghost use Rattle.semantic_kinds.specs.MarkSets.{set_of, marks_in, is_within};
ghost use Rattle.semantic_kinds.specs.Allowed.{allowed_marks};

use crate::kind::AstType;
use crate::mark::Mark;
use crate::marks::Marks;
use crate::role::Role;

/// Each kind, role and mark is found by its name.
pub fn names_are_read_back()
    ensures kinds { (one : AstType) → kind_named (kind_name one) ≡ Some one }
    ensures roles { (one : Role) → role_named (role_name one) ≡ Some one }
    ensures marks { (one : Mark) → mark_named (mark_name one) ≡ Some one }
{}

/// The number of a kind is its place in their order.
pub fn kinds_are_numbered()
    ensures { (one : AstType) → slice_get all_kinds (kind_number one) ≡ Some one }
{}

/// A set of marks that a kind may have is the set of its marks.
pub fn allowed_sets_are_of_marks()
    ensures { (kind : AstType) (marks : Marks) →
        is_within marks (set_of (allowed_marks kind)) ≡ true → set_of (marks_in marks) ≡ marks }
{}
