//! What a walk asks of the rules of early errors.
ghost use Rattle.check_model.specs.Rows.{rows_of};
ghost use Rattle.check_context.specs.Handed.{sight};
ghost use Rattle.check_context.specs.Tells.{Tells};
ghost use Rattle.check_context.specs.Leavable.{IsLeavable};

use crate::context::CheckContext;
use semantic_diagnostics::Diagnostics;
use semantic_tree::AstKind;
use std::alloc::{AllocError, Global};

/// The rules of early errors, which a walk asks on leaving each node, with checks on.
pub trait Rules {
    /// Adds a diagnostic for each rule of early errors that the node violates, in order, at the end of the list, as the
    /// context shows the path to the node, the scopes, the symbols, the references and the classes. For want of memory
    /// the first of the diagnostics are added.
    fn check<'a>(
        &self,
        alloc: Global,
        kind: AstKind<'a>,
        ctx: &CheckContext<'a, '_>,
        out: &mut Diagnostics,
    ) -> Result<(), AllocError>
        requires { IsLeavable kind.node.now ctx.now }
        ensures { Tells result (rows_of (sight kind.entry.node.now ctx.now)) out.old out.new };
}
