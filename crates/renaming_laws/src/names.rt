//! A law on names that break rules by themselves.
ghost use Rattle.std.specs.Prelude.{◌≡◌, [], true, false};
ghost use Rattle.check_model.specs.Rows.{rows_of};
ghost use Rattle.check_model.specs.Sight.{Sight};
ghost use Rattle.renaming_laws.specs.AskedNames.{is_asked_for, is_name};

/// No name breaks a rule where it stands, but for the twelve that rules ask for: wherever another one is declared or used, or
/// is a label, the rules of early errors on this node tell nothing.
pub fn names_that_are_not_asked_for_break_no_rule()
    ensures { (s : Sight) → is_name s.node.kind ≡ true → is_asked_for s.node.text ≡ false
        → rows_of s ≡ [] }
{}
