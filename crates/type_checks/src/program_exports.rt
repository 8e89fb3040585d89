//! Early errors of the export assignments of a whole program.
ghost use Rattle.std.specs.Prelude.{◌≡◌};
ghost use Rattle.check_model.specs.Exports as rows;
ghost use Rattle.check_context.specs.Handed.{sight, IsContext};
ghost use Rattle.check_context.specs.Tells.{Tells};

use crate::exports::tell_block;
use check_context::CheckContext;
use semantic_diagnostics::Diagnostics;
use semantic_tree::AstKind;
use std::alloc::{AllocError, Global};

/// An export assignment is the only export of a program, in TypeScript (`TS(2309)`).
#[tactic(auto, using(check_context::proofs::Telling::telling))]
pub fn check_ts_export_assignment_in_program<'a>(
    alloc: Global,
    kind: AstKind<'a>,
    ctx: &CheckContext<'a, '_>,
    out: &mut Diagnostics,
) -> Result<(), AllocError>
    requires { IsContext ctx.now }
    ensures { Tells result (rows.check_ts_export_assignment_in_program
        (sight kind.entry.node.now ctx.now)) out.old out.new }
{
    if ctx.source_type.is_typescript() {
        tell_block(alloc, kind, out)
    } else {
        Ok(())
    }
}
