//! Laws over targets and what they stand for.

ghost use Rattle.std.specs.Prelude.{◌≡◌, List, Some};
ghost use Rattle.semantic_syntax.specs.Tables.{Name};
ghost use Rattle.link_model.specs.Leads.{LinkEnd};
ghost use Rattle.link_model.specs.Module.{Analysed};
ghost use Rattle.link_model.specs.Outcome.{IsOutcome};
ghost use Rattle.link_search.specs.Ends.{AreApart};
ghost use Rattle.link_search.specs.Exports.{leads_of, StaysWithin};
ghost use Rattle.link_search.specs.Targets.{TargetComesTo};
ghost use Rattle.link_search.specs.declared.answer.Found.{Found};
ghost use Rattle.link_search.specs.declared.exports.SetExports.{SetExports};
ghost use Rattle.link_search.specs.declared.target.Target.{Target};
ghost use Rattle.link_targets.specs.Denoted.{denoted, Grows};
ghost use Rattle.link_targets.specs.Described.{AreSetExports};
ghost use Rattle.link_targets.specs.Followed.{Follow, outcome_of};
ghost use Rattle.tree_json.specs.Written.{and_text};

/// Where targets lead to what their ends lead to, what a target comes to is the outcome of its end.
pub fn outcomes_follow()
    ensures { (texts : List Name) (s : SetExports) (ms : List Analysed) → AreApart texts
        → Follow texts s ms
        → (t : Target) (e : LinkEnd) (f : Found) → denoted texts t ≡ Some e
        → TargetComesTo (leads_of s) t f
        → IsOutcome ms e (outcome_of f) }
{}

/// A target stands for one end alone, also once more texts have numbers.
pub fn targets_keep_their_ends()
    ensures { (old new : List Name) (t : Target) (e : LinkEnd) → Grows old new
        → denoted old t ≡ Some e
        → denoted new t ≡ Some e }
{}

/// A text that gets a number leaves those of the others, and no text has two.
pub fn texts_keep_their_numbers()
    ensures { (old : List Name) (text : Name) → Grows old (and_text old text) }
{}

/// Exports in numbers lead where the names do.
pub fn exports_follow()
    ensures { (texts : List Name) (ms : List Analysed) (s : SetExports) → AreApart texts
        → AreSetExports texts ms s → Follow texts s ms }
{}

/// Exports in numbers lead only to modules of the set, and to names that have numbers.
pub fn exports_stay_within()
    ensures { (texts : List Name) (ms : List Analysed) (s : SetExports) → AreApart texts
        → AreSetExports texts ms s → StaysWithin s }
{}
