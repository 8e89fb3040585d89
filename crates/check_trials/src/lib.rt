//! Small programs with what is told of them, by computation: they stand in `proofs/`, and violate each rule or none.
#![tactic(auto)]

ghost use Rattle.std.specs.Prelude.{◌≡◌, true};
ghost use Rattle.check_model.specs.DiagnosticsOf.{diagnostics_of};
ghost use Rattle.check_trials.specs.LoneBreak.{lone_break, illegal_break};

/// A `break` that stands alone is told, and nothing else.
pub fn lone_break_is_told()
    ensures { diagnostics_of true lone_break ≡ illegal_break }
{}
