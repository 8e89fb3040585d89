//! All tools behind one input of requests.
ghost use Rattle.std.specs.Prelude.{◌≡◌};

use crate::tool::{Tool, USAGE};
use program_ends::{FindingStatus, refuse};
use report_ends::{SureSink, SureSource};
use serving::Answering;
use std::alloc::Global;

/// The tools: the first word of a request names the one that answers.
#[derive(Clone, Copy, Debug, Drop)]
pub struct Tools;

impl Answering for Tools {
    ghost use Rattle.tools.specs.Served.{ToolAnswers};

    ghost Answers = { λ _. ToolAnswers };

    fn answer(
        &self,
        alloc: Global,
        words: &[String],
        input: Vec<u8>,
        out: &mut SureSink,
        errs: &mut SureSink,
    ) -> u8 {
        let Some((name, rest)) = words.split_first() else {
            let status: FindingStatus = refuse(USAGE, errs);
            return status.code();
        };
        match Tool::named(name) {
            Some(tool) => tool
                .run(alloc, rest, &mut SureSource::new(input), out, errs)
                .code(),
            None => {
                let status: FindingStatus = refuse(USAGE, errs);
                status.code()
            }
        }
    }
}
