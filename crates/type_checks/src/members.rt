//! Early errors of classes.
ghost use Rattle.std.specs.Prelude.{◌≡◌, None, flat_map, not};
ghost use Rattle.semantic_kinds.specs.declared.mark.Mark.TheVariants as mark;
ghost use Rattle.semantic_tree.specs.Views.{has};
ghost use Rattle.check_model.specs.Classes.{members};
ghost use Rattle.check_model.specs.Members as rows;
ghost use Rattle.check_model.specs.Search.{each_between, rows_if};
ghost use Rattle.check_context.specs.Handed.{sight, IsContext};
ghost use Rattle.check_context.specs.Tells.{Tells};

use crate::abstract_members::tell_abstract_members;
use crate::implementations::tell_implementations;
use check_context::CheckContext;
use semantic_diagnostics::Diagnostics;
use semantic_tree::{AstKind, Mark};
use std::alloc::{AllocError, Global};

/// Tells of abstract members of a class that is not abstract.
#[tactic(auto, using(check_context::proofs::Telling::telling))]
fn tell_concrete(alloc: Global, kind: AstKind<'_>, out: &mut Diagnostics) -> Result<(), AllocError>
    ensures { let node = kind.entry.node.now in
        Tells result (rows_if (not (has mark.Abstract node))
        (flat_map rows.abstract_rows (members node))) out.old out.new }
{
    if kind.has_mark(Mark::Abstract) {
        Ok(())
    } else {
        tell_abstract_members(alloc, kind, out)
    }
}

/// Tells of members that lack a body in code that is not ambient.
#[tactic(auto, using(check_context::proofs::Telling::telling))]
fn tell_bodies(
    alloc: Global,
    kind: AstKind<'_>,
    ctx: &CheckContext<'_, '_>,
    out: &mut Diagnostics,
) -> Result<(), AllocError>
    ensures { let s = sight kind.entry.node.now ctx.now in
        Tells result (rows_if (not s.is_ambient)
        (each_between rows.implementation_rows None (members s.node))) out.old out.new }
{
    if ctx.in_ambient {
        Ok(())
    } else {
        tell_implementations(alloc, kind, out)
    }
}

/// A class that is not abstract has no abstract members (`TS(1244)`, `TS(1253)`), and code that is not ambient has a
/// body for each method, behind its overloads (`TS(2390)`, `TS(2391)`).
#[tactic(auto, using(check_context::proofs::Telling::telling))]
pub fn check_class<'a>(
    alloc: Global,
    kind: AstKind<'a>,
    ctx: &CheckContext<'a, '_>,
    out: &mut Diagnostics,
) -> Result<(), AllocError>
    requires { IsContext ctx.now }
    ensures { Tells result (rows.check_class_members (sight kind.entry.node.now ctx.now)) out.old
        out.new }
{
    tell_concrete(alloc, kind, out)?;
    tell_bodies(alloc, kind, ctx, out)
}
