//! Writes the lines on links.
ghost use Rattle.std.specs.Prelude.{◌≡◌, map};
ghost use Rattle.std.specs.Str.{chars};
ghost use Rattle.tree_json.specs.Views.{characters, IsSpelled};
ghost use Rattle.report_ends.specs.Streams.{WritesLines};
ghost use Rattle.link_model.specs.Module.{all_analysed};
ghost use Rattle.link_model.specs.Outcome.{all_imports};
ghost use Rattle.module_entries.specs.LinkLines.{link_line, lines_for, link_lines, IsLinkLine};

use crate::line::make_link_line;
use crate::locals::locals_of;
use link_model::Link;
use module_set::Modules;
use report_ends::{ReportError, Sink};
use report_lines::Line;
use std::alloc::Global;

/// A text is the UTF-8 form of its characters.
#[tactic(auto, using(tree_json::proofs::Spelled::is_spelled))]
fn spell(text: &str)
    ensures { IsSpelled text.entry }
{}

fn write_link<K: Sink>(
    line: &mut Line,
    local: &str,
    link: &Link,
    out: &mut K,
) -> Result<(), ReportError>
    ensures { WritesLines K.held K.faults K.Offered IsLinkLine out.old out.new
        (link_line (chars local.now) link.now) result }
{
    spell(local);
    let made = make_link_line(line, local, link);
    line.offer_made(made, out)
}

/// Writes the lines on links, whose imports bind the names.
fn write_lines<K: Sink>(
    alloc: Global,
    locals: &[&str],
    links: &[Link],
    out: &mut K,
) -> Result<(), ReportError>
    ensures { WritesLines K.held K.faults K.Offered IsLinkLine out.old out.new
        (lines_for (map characters locals.now) links.now) result }
{
    let mut line = Line::new(alloc);
    for (local, link) in locals.iter().zip(links) {
        write_link(&mut line, local, link, out)?;
    }
    Ok(())
}

/// Writes a line on each link, with the name that its import binds: links and imports are paired in order. Each line is
/// offered as one piece, and what a call leaves of it is offered again. It answers `Write` where a call on the sink
/// failed or took nothing, and `Memory`. The sink has taken a prefix of the lines then.
pub fn write_links<K: Sink>(
    alloc: Global,
    modules: &Modules,
    links: &[Link],
    out: &mut K,
) -> Result<(), ReportError>
    ensures { WritesLines K.held K.faults K.Offered IsLinkLine out.old out.new
        (link_lines (all_imports (all_analysed modules.now)) links.now) result }
{
    let locals = locals_of(alloc, modules.as_slice())?;
    write_lines(alloc, &locals, links, out)
}
