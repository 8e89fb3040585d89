//! Laws on early errors where two names are swapped.
ghost use Rattle.std.specs.Prelude.{◌≡◌, [], None, Bool, false, true};
ghost use Rattle.semantic_kinds.specs.declared.mark.Mark.TheVariants as mark;
ghost use Rattle.semantic_syntax.specs.Tables.{Name};
ghost use Rattle.semantic_tree.specs.Faults.{first_fault};
ghost use Rattle.semantic_tree.specs.Renamed.{swap, swapped_tree};
ghost use Rattle.semantic_tree.specs.Tree.{Tree};
ghost use Rattle.semantic_tree.specs.declared.node.Node.{Node};
ghost use Rattle.check_model.specs.DiagnosticsOf.{diagnostics_of};
ghost use Rattle.check_model.specs.Rows.{rows_of};
ghost use Rattle.check_model.specs.Sight.{Sight};
ghost use Rattle.program_laws.specs.ReadMarks.{unmarked_tree};
ghost use Rattle.swapped_checks.specs.RuleWords.{is_rule_word, KeepsRuleWords};
ghost use Rattle.swapped_checks.specs.SwappedPrograms.{holds_within, is_other_string, keeps_prototype};
ghost use Rattle.swapped_checks.specs.SwappedRows.{AreToldAgain};
ghost use Rattle.swapped_checks.specs.SwappedSight.{HasPlainParts, IsRenamedSight, is_signature_list, KeepsParameters};

/// Early errors only compare names. Take what the rules look at on leaving a node, and swap two names in it, neither of them one of
/// the words of the rules: the node violates the same rules, in the same order, told at the same places. Each row is the same one,
/// or names the other name. So a node that violates none violates none then.
pub fn swapped_names_leave_early_errors()
    ensures rows { (a b : Name) (s t : Sight) → is_rule_word a ≡ false → is_rule_word b ≡ false
        → HasPlainParts s → IsRenamedSight (swap a b) s t
        → AreToldAgain (swap a b) (rows_of s) (rows_of t) }
    ensures none { (a b : Name) (s t : Sight) → is_rule_word a ≡ false → is_rule_word b ≡ false
        → HasPlainParts s → IsRenamedSight (swap a b) s t → rows_of s ≡ []
        → rows_of t ≡ [] }
{}

/// One rule alone compares the names of two nodes that may be renamed: that of signatures, whose parameters have different names.
/// So names may be changed in any way, and different ones to one, as long as the words of the rules stay and no name becomes one
/// of them, and the parameters of a signature share names where they did: the rows are the same, or name the other name.
pub fn one_rule_compares_names()
    ensures { (f : Name → Name) (s t : Sight) → KeepsRuleWords f → HasPlainParts s
        → IsRenamedSight f s t
        → (is_signature_list s.node ≡ true → KeepsParameters f s.node)
        → AreToldAgain f (rows_of s) (rows_of t) }
{}

/// A program without fault in which two names are swapped, neither of them one of the words of the rules nor a string literal of
/// the program, has the diagnostics that the program has, in the same order and at the same places. Each is the same one, or names
/// the other name: that of a name which is declared again, or exported and not declared. So a program without any has none then.
pub fn swapped_names_leave_diagnostics()
    ensures told { (a b : Name) (p : Tree) (checks : Bool) → first_fault p ≡ None
        → is_rule_word a ≡ false → is_rule_word b ≡ false
        → holds_within (is_other_string a b) p.root ≡ true
        → AreToldAgain (swap a b) (diagnostics_of checks p)
        (diagnostics_of checks (swapped_tree a b p)) }
    ensures none { (a b : Name) (p : Tree) (checks : Bool) → first_fault p ≡ None
        → is_rule_word a ≡ false → is_rule_word b ≡ false
        → holds_within (is_other_string a b) p.root ≡ true → diagnostics_of checks p ≡ []
        → diagnostics_of checks (swapped_tree a b p) ≡ [] }
    // The same where properties are written out too, but no `{ __proto__ }`.
    ensures written { (a b : Name) (test : Node → Bool) (p : Tree) (checks : Bool)
        → first_fault p ≡ None → is_rule_word a ≡ false → is_rule_word b ≡ false
        → holds_within (is_other_string a b) p.root ≡ true
        → holds_within (keeps_prototype test) p.root ≡ true
        → AreToldAgain (swap a b) (diagnostics_of checks p)
        (diagnostics_of checks (swapped_tree a b (unmarked_tree test mark.Shorthand p))) }
{}

/// A program without fault in which properties are written out that were in short, as `{ a: a }` for `{ a }`, has the same
/// diagnostics. Of `{ __proto__ }` that isn't so: written out it sets the prototype, which an object does once.
pub fn properties_written_out_leave_diagnostics()
    ensures { (test : Node → Bool) (p : Tree) (checks : Bool) → first_fault p ≡ None
        → holds_within (keeps_prototype test) p.root ≡ true
        → diagnostics_of checks (unmarked_tree test mark.Shorthand p) ≡ diagnostics_of checks p }
{}
