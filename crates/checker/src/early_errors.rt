//! The rules as a walk asks them.
ghost use Rattle.check_model.specs.Rows.{rows_of};
ghost use Rattle.check_context.specs.Handed.{sight};
ghost use Rattle.check_context.specs.Tells.{Tells};
ghost use Rattle.check_context.specs.Leavable.{IsLeavable};

use crate::by_kind::check;
use check_context::{CheckContext, Rules};
use semantic_diagnostics::Diagnostics;
use semantic_tree::AstKind;
use std::alloc::{AllocError, Global};

/// The early errors of JavaScript and TypeScript: all rules that there are.
pub struct EarlyErrors;

impl Rules for EarlyErrors {
    fn check<'a>(
        &self,
        alloc: Global,
        kind: AstKind<'a>,
        ctx: &CheckContext<'a, '_>,
        out: &mut Diagnostics,
    ) -> Result<(), AllocError>
        requires { IsLeavable kind.node.now ctx.now }
        ensures { Tells result (rows_of (sight kind.entry.node.now ctx.now)) out.old out.new }
    {
        check(alloc, kind, ctx, out)
    }
}
