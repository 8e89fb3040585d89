//! Laws over programs that differ in marks.
ghost use Rattle.std.specs.Prelude.{◌≡◌, Bool, false};
ghost use Rattle.semantic_kinds.specs.declared.mark.Mark.{Mark};
ghost use Rattle.semantic_kinds.specs.declared.marks.Marks.{Marks};
ghost use Rattle.semantic_tree.specs.Tree.{Tree};
ghost use Rattle.semantic_tree.specs.declared.node.Node.{Node};
ghost use Rattle.program_laws.specs.ReadMarks.{is_read, KeepsRead, unmarked_tree};
ghost use Rattle.program_laws.specs.Remarked.{remarked_tree};
ghost use Rattle.program_laws.specs.SameAnalysis.{HaveSameAnalysis};

/// An analysis reads nine marks. A program in which nodes have other marks besides these has the same tables, the same
/// scopes, symbols and references at its nodes, the same conflicts, and namespaces of the same states.
pub fn marks_that_are_not_read_change_nothing()
    ensures { (f : Node → Marks) (p : Tree) → KeepsRead f → HaveSameAnalysis (remarked_tree f p) p }
{}

/// So it is where some nodes lose one mark that is not read, as `shorthand`.
pub fn a_mark_that_is_not_read_may_go()
    ensures { (test : Node → Bool) (m : Mark) (p : Tree) → is_read m ≡ false
        → HaveSameAnalysis (unmarked_tree test m p) p }
{}
