//! Laws over the definitions of linking.

ghost use Rattle.std.specs.Prelude.{◌≡◌, List, true};
ghost use Rattle.link_model.specs.Computed.{outcome_of, suffices};
ghost use Rattle.link_model.specs.Leads.{LinkEnd};
ghost use Rattle.link_model.specs.Module.{Analysed};
ghost use Rattle.link_model.specs.Outcome.{IsOutcome};

/// The outcome that is computed is the outcome, where the bound of the computation sufficed.
pub fn outcomes_are_computed()
    ensures { (ms : List Analysed) (e : LinkEnd) → suffices ms e ≡ true
        → IsOutcome ms e (outcome_of ms e) }
{}
