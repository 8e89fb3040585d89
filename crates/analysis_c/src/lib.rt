// The report program as one call for C, over bytes in memory.
#![tactic(auto)]

ghost use Rattle.analysis_c.specs.Answers.{CallAnswered};

mod ends;
mod filling;
mod running;

use crate::filling::fill;
use crate::running::run_over_bytes;
use report_ends::SureSink;
use std::alloc::Global;

/// What `bolgwyr_report` answers.
#[repr(C)]
#[derive(Clone, Copy, Debug, PartialEq, Eq)]
pub struct Answer {
    /// The status that the report program ends with: 0 to 4 and 7. 5 and 6 never come, since no end fails.
    pub status: u32,
    /// How many bytes the report has, whether or not they fit into their buffer.
    pub report_len: usize,
    /// How many bytes the line on errors has, whether or not they fit into their buffer.
    pub message_len: usize,
}

/// Does what the report program does, over bytes in memory: `tree` is its input, and `words` are its words, one a line.
/// `report` and `message` get what it writes on standard output and on standard error, or as much of its front as fits,
/// and are as they were behind that. Words that aren't UTF-8 are refused like unknown ones. All memory that it takes is
/// given back before it returns, so a caller whose buffer was too small can call again with one that isn't.
#[unsafe(no_mangle)]
pub extern "C" fn bolgwyr_report(
    alloc: Global,
    tree: &[u8],
    words: &[u8],
    report: &mut [u8],
    message: &mut [u8],
) -> Answer
    ensures { CallAnswered tree.now words.now report.old report.new message.old message.new result }
{
    let mut out = SureSink::new(alloc);
    let mut errs = SureSink::new(alloc);
    let status = run_over_bytes(alloc, tree, words, &mut out, &mut errs);
    Answer {
        status: u32::from(status.code()),
        report_len: fill(report, out.held()),
        message_len: fill(message, errs.held()),
    }
}
