//! What answers a request.
ghost use Rattle.std.specs.Prelude.{◌≡◌, ℕ, List, String, []};
ghost use Rattle.std.specs.declared.alloc.Global.{Global};
ghost use Rattle.report_ends.specs.Memory.{sure_held};
ghost use Rattle.serving.specs.Requests.{Answer};

use report_ends::SureSink;
use std::alloc::Global;

/// What answers a request: words and an input get a status, an output and a line on errors.
pub trait Answering {
    // Whether the answer is one to the words and the input.
    ghost Answers: { Self → List (String Global) → List ℕ → Answer → Type 0 };

    /// Answers the words and the input on empty sinks, which never fail, and gives the status.
    fn answer(
        &self,
        alloc: Global,
        words: &[String],
        input: Vec<u8>,
        out: &mut SureSink,
        errs: &mut SureSink,
    ) -> u8
        requires out_empty { sure_held out.old ≡ [] }
        requires errs_empty { sure_held errs.old ≡ [] }
        ensures { Answers self.now words.now input.items
            record { status = result; out = sure_held out.new; errs = sure_held errs.new } };
}
