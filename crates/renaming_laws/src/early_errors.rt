//! Laws on early errors of renamed programs.
ghost use Rattle.std.specs.Prelude.{◌≡◌, ℕ, Some, None, Ok, Bool, false, true, [], slice_get};
ghost use Rattle.semantic_syntax.specs.Tables.{Name, Symbol};
ghost use Rattle.semantic_tree.specs.Faults.{first_fault};
ghost use Rattle.semantic_tree.specs.Renamed.{swap};
ghost use Rattle.semantic_tree.specs.Tree.{Tree, IsNumbered};
ghost use Rattle.semantic_model.specs.Analysis.{analysis_of};
ghost use Rattle.semantic_model.specs.NamespaceStates.{namespace_states};
ghost use Rattle.semantic_model.specs.Step.{steps};
ghost use Rattle.semantic_model.specs.TablesOf.{tables_of, made_of};
ghost use Rattle.check_model.specs.DiagnosticsOf.{diagnostics_of};
ghost use Rattle.rename_model.specs.Alone.{BelongsTo, IsUnused};
ghost use Rattle.rename_model.specs.Refusal.{rename};
ghost use Rattle.rename_model.specs.Renamed.{bears_name};
ghost use Rattle.rename_model.specs.WithName.{sheds};
ghost use Rattle.renaming_laws.specs.InBlocks.{ShareFlags};
ghost use Rattle.renaming_laws.specs.LeavesRules.{LeavesRules};
ghost use Rattle.renaming_laws.specs.LookedUp.{exports_neither};
ghost use Rattle.renaming_laws.specs.NewNames.{instead};
ghost use Rattle.renaming_laws.specs.WrittenOut.{written_out};
ghost use Rattle.swapped_checks.specs.RuleWords.{is_rule_word};
ghost use Rattle.swapped_checks.specs.SwappedPrograms.{holds_within, is_other_string, keeps_prototype};
ghost use Rattle.swapped_checks.specs.SwappedRows.{AreToldAgain};

/// Where every node with the name of a symbol belongs to it, and no node has the new name, the renamed program has the diagnostics
/// of the program, early errors too, in the same order and at the same places: each is the same one, or is told of the other name.
/// Neither name is a word of the rules or a string literal of the program. Properties in short with the symbol as their value are
/// written out, which breaks no rule but for a `{ __proto__ }`: only a tree that no parser makes has there a value of another name.
pub fn a_name_of_one_symbol_keeps_early_errors()
    ensures in_full { (p q : Tree) (s : ℕ) (y : Symbol) (new : Name) (checks : Bool)
        → first_fault p ≡ None
        → IsNumbered p.root → slice_get (tables_of p).symbols s ≡ Some y
        → is_rule_word y.name ≡ false → is_rule_word new ≡ false
        → holds_within (is_other_string y.name new) p.root ≡ true
        → BelongsTo p s y.name → IsUnused p new → written_out p s ≡ p
        → rename p s new ≡ Ok q
        → AreToldAgain (swap y.name new) (diagnostics_of checks p) (diagnostics_of checks q) }
    ensures in_short { (p q : Tree) (s : ℕ) (y : Symbol) (new : Name) (checks : Bool)
        → first_fault p ≡ None → IsNumbered p.root → slice_get (tables_of p).symbols s ≡ Some y
        → is_rule_word y.name ≡ false → is_rule_word new ≡ false
        → holds_within (is_other_string y.name new) p.root ≡ true
        → BelongsTo p s y.name → IsUnused p new
        → holds_within (keeps_prototype (sheds (bears_name (analysis_of p) s))) p.root ≡ true
        → rename p s new ≡ Ok q
        → AreToldAgain (swap y.name new) (diagnostics_of checks p) (diagnostics_of checks q) }
{}

/// A renaming keeps the diagnostics of a program, early errors too, in the same order and at the same places, whatever else has the
/// old name or the new one: each is the same one, or is told of the new name where it was told of the old one. Declarations have to
/// stay, under the conditions under which conflicts do, and what the rules ask for is left alone: neither name is one of their words.
/// What else they ask for is so in each tree that a parser makes.
pub fn a_renaming_keeps_early_errors()
    ensures kept { (p q : Tree) (s : ℕ) (y : Symbol) (new : Name) (checks : Bool)
        → first_fault p ≡ None → IsNumbered p.root → slice_get (tables_of p).symbols s ≡ Some y
        → LeavesRules p s y.name new → rename p s new ≡ Ok q
        → namespace_states (steps q) ≡ namespace_states (steps p)
        → ShareFlags (made_of p) → ShareFlags (made_of q)
        → AreToldAgain (instead y.name new) (diagnostics_of checks p) (diagnostics_of checks q) }
    ensures without_namespaces { (p q : Tree) (s : ℕ) (y : Symbol) (new : Name) (checks : Bool)
        → first_fault p ≡ None → IsNumbered p.root → slice_get (tables_of p).symbols s ≡ Some y
        → LeavesRules p s y.name new → rename p s new ≡ Ok q
        → namespace_states (steps p) ≡ [] → ShareFlags (made_of p) → ShareFlags (made_of q)
        → AreToldAgain (instead y.name new) (diagnostics_of checks p) (diagnostics_of checks q) }
    ensures unexported { (p q : Tree) (s : ℕ) (y : Symbol) (new : Name) (checks : Bool)
        → first_fault p ≡ None → IsNumbered p.root → slice_get (tables_of p).symbols s ≡ Some y
        → LeavesRules p s y.name new → rename p s new ≡ Ok q
        → holds_within (exports_neither y.name new) p.root ≡ true
        → ShareFlags (made_of p) → ShareFlags (made_of q)
        → AreToldAgain (instead y.name new) (diagnostics_of checks p) (diagnostics_of checks q) }
{}
