//! The early errors of one node alone, as whoever walks a tree without the analysis asks for them.
ghost use Rattle.std.specs.Prelude.{◌≡◌, ◌++◌, true, false, Ok, OnErr};
ghost use Rattle.check_model.specs.Rows.{rows_of};
ghost use Rattle.check_context.specs.Handed.{sight};
ghost use Rattle.check_context.specs.Tells.{TellsSome};
ghost use Rattle.checker.specs.Checkable.{IsCheckable};

use checker::{CheckContext, check, is_checkable};
use semantic_diagnostics::Diagnostics;
use semantic_tree::AstKind;
use std::alloc::{AllocError, Global};

/// Adds the early errors of the node, and tells whether it could: where node and context don't fit together nothing is told.
/// For want of memory, the only error, the first of them are added.
pub fn add_early_errors<'a>(
    alloc: Global,
    kind: AstKind<'a>,
    ctx: &CheckContext<'a, '_>,
    out: &mut Diagnostics,
) -> Result<bool, AllocError>
    ensures told { result ≡ Ok true
        → out.new ≡ out.old ++ rows_of (sight kind.entry.node.now ctx.now) }
    ensures fit { IsCheckable kind.entry.node.now ctx.now → result ≡ Ok false → ⊥ }
    ensures unfit { result ≡ Ok false → out.new ≡ out.old }
    ensures begun { OnErr result (TellsSome (rows_of (sight kind.entry.node.now ctx.now)) out.old
        out.new) }
{
    if !is_checkable(kind, ctx) {
        return Ok(false);
    }
    check(alloc, kind, ctx, out)?;
    Ok(true)
}
