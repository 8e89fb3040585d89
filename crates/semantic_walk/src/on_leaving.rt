//! A node is left.
ghost use Rattle.std.specs.Prelude.{◌≡◌, ◌++◌, map, drop, OnOk};
ghost use Rattle.check_model.specs.DiagnosticsOf.{conflict_diagnostic};
ghost use Rattle.check_model.specs.Rows.{rows_of};
ghost use Rattle.check_context.specs.Handed.{sight};
ghost use Rattle.check_context.specs.Leavable.{IsLeavable};

use check_context::{CheckContext, Rules};
use semantic_diagnostics::Diagnostics;
use semantic_tree::AstKind;
use std::alloc::{AllocError, Global};
use table_building::declared::Declared;

/// Adds, at the end of what was said, a diagnostic for each conflict that is not counted yet, and then one for each rule
/// of early errors that the node violates which is left, in order, as the context shows what is around it.
pub fn tell_leaving<'a, R: Rules>(
    rules: &R,
    alloc: Global,
    kind: AstKind<'a>,
    context: &CheckContext<'a, '_>,
    declared: &Declared<'a>,
    counted: usize,
    said: &mut Diagnostics,
) -> Result<(), AllocError>
    requires { IsLeavable kind.node.now context.now }
    ensures { OnOk result (said.new
        ≡ said.old ++ map conflict_diagnostic (drop counted declared.now.conflicts)
        ++ rows_of (sight kind.entry.node.now context.now)) }
{
    declared.tell_from(counted, said)?;
    rules.check(alloc, kind, context, said)
}
