//! The line on one link.
ghost use Rattle.std.specs.Prelude.{◌≡◌, ◌++◌, OnOk};
ghost use Rattle.std.specs.Str.{chars};
ghost use Rattle.tree_json.specs.Views.{IsSpelled};
ghost use Rattle.module_entries.specs.LinkLines.{outcome_text, link_line};

use link_model::{Link, LinkOutcome};
use report_lines::Line;
use std::alloc::AllocError;

/// Adds what an import comes to.
#[tactic(auto, unfolding(crate::specs::LinkLines::outcome_text))]
fn push_outcome(line: &mut Line, outcome: LinkOutcome) -> Result<(), AllocError>
    ensures { OnOk result (line.new ≡ line.old ++ outcome_text outcome) }
{
    match outcome {
        LinkOutcome::Symbol(module, symbol) => {
            line.push_labelled("symbol ", module as usize)?;
            line.push_labelled(" ", symbol.index())
        }
        LinkOutcome::Default(module) => line.push_labelled("default ", module as usize),
        LinkOutcome::Namespace(module) => line.push_labelled("namespace ", module as usize),
        LinkOutcome::External => line.push("external"),
        LinkOutcome::Missing => line.push("missing"),
        LinkOutcome::Ring => line.push("ring"),
        LinkOutcome::Ambiguous => line.push("ambiguous"),
    }
}

/// Makes the line on a link, whose import binds the name.
#[tactic(auto, unfolding(crate::specs::LinkLines::link_line))]
pub fn make_link_line(line: &mut Line, local: &str, link: &Link) -> Result<(), AllocError>
    requires { IsSpelled local }
    ensures { OnOk result (line.new ≡ link_line (chars local.now) link.now) }
{
    line.begin();
    line.push_labelled("import ", link.module as usize)?;
    line.push_labelled(" ", link.node.index())?;
    line.push_quoted(" ", local)?;
    line.push(" ")?;
    push_outcome(line, link.outcome)?;
    line.push("\n")
}
