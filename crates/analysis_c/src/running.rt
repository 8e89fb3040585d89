// Runs the program over bytes in memory.
ghost use Rattle.std.specs.Prelude.{◌≡◌, []};
ghost use Rattle.report_ends.specs.Memory.{sure_held};
ghost use Rattle.analysis_c.specs.Answers.{Answers};

use crate::ends::BytesSource;
use program_ends::tell;
use report::{ReportStatus, refuse_words, run};
use report_ends::{ReportError, SureSink};
use serving::words_of;
use std::alloc::Global;

/// Runs the program over a tree's bytes, with words that stand one a line. The sinks are empty before.
pub fn run_over_bytes(
    alloc: Global,
    tree: &[u8],
    words: &[u8],
    out: &mut SureSink,
    errs: &mut SureSink,
) -> ReportStatus
    requires out_empty { sure_held out.old ≡ [] }
    requires errs_empty { sure_held errs.old ≡ [] }
    ensures { Answers tree.now words.now (sure_held out.new) (sure_held errs.new) result }
{
    let Ok(text) = str::from_utf8(words) else {
        return refuse_words(errs);
    };
    let Ok(words) = words_of(alloc, text) else {
        return tell(alloc, &ReportError::Memory, errs);
    };
    run(alloc, &words, &mut BytesSource::new(tree), out, errs)
}
