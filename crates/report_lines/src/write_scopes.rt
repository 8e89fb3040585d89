//! Writes the lines on scopes and what they bind.
ghost use Rattle.std.specs.Prelude.{◌<◌, length, ℕ};
ghost use Rattle.std.specs.List.{flat_map};
ghost use Rattle.semantic_syntax.specs.Reading.{scope_of};
ghost use Rattle.report_ends.specs.Streams.{WritesLines, numbered_text};
ghost use Rattle.report_lines.specs.TableLines.{bind_line, scope_lines};
ghost use Rattle.report_lines.specs.Rows.{IsRow};

use crate::line::Line;
use crate::table_lines::{make_bind_line, make_scope_line};
use report_ends::{ReportError, Sink};
use scoping::{Bindings, Scoping};
use semantic_syntax::ScopeId;

fn write_bindings<K: Sink>(
    line: &mut Line,
    scope: ScopeId,
    bindings: &Bindings<'_>,
    out: &mut K,
) -> Result<(), ReportError>
    ensures { WritesLines K.held K.faults K.Offered IsRow out.old out.new
        (flat_map (bind_line scope) bindings.now) result }
{
    for (name, symbol) in bindings.iter() {
        let made = make_bind_line(line, scope, name.as_str(), symbol);
        line.offer_made(made, out)?;
    }
    Ok(())
}

fn write_scope<K: Sink>(
    line: &mut Line,
    scoping: &Scoping,
    scope: ScopeId,
    out: &mut K,
) -> Result<(), ReportError>
    requires { scope < length scoping.now.scopes }
    ensures { WritesLines K.held K.faults K.Offered IsRow out.old out.new
        (scope_lines scoping.now scope (scope_of scoping.now scope)) result }
{
    let parent = scoping.scope_parent_id(scope);
    let made = make_scope_line(
        line,
        scope,
        parent,
        scoping.get_node_id(scope),
        scoping.scope_flags(scope),
    );
    line.offer_made(made, out)?;
    write_bindings(line, scope, &scoping.get_bindings(scope), out)
}

/// Writes the lines of the scopes, each with what it binds.
pub fn write_scopes<K: Sink>(
    line: &mut Line,
    scoping: &Scoping,
    out: &mut K,
) -> Result<(), ReportError>
    ensures { WritesLines K.held K.faults K.Offered IsRow out.old out.new
        (numbered_text (scope_lines scoping.now) 0 scoping.now.scopes) result }
{
    let count = scoping.scopes_len() as u32;
    for number in 0..count {
        write_scope(line, scoping, ScopeId::new(number), out)?;
    }
    Ok(())
}
