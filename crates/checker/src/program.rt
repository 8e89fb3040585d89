//! The checks of a whole program.
ghost use Rattle.semantic_kinds.specs.declared.kind.AstType.TheVariants as kinds;
ghost use Rattle.check_model.specs.Rows.{rows_by};
ghost use Rattle.check_context.specs.Handed.{sight};
ghost use Rattle.check_context.specs.Tells.{Tells};
ghost use Rattle.checker.specs.Checkable.{IsCheckable};

use crate::{javascript, typescript};
use check_context::CheckContext;
use semantic_diagnostics::Diagnostics;
use semantic_tree::AstKind;
use std::alloc::{AllocError, Global};

/// What the rules tell of a whole program, on leaving its root: of the elements of its classes (ECMAScript 15.7.1), of what it
/// exports (16.2.1.1), and of what it imports (16.2.2.1).
pub(crate) fn check_program(
    alloc: Global,
    kind: AstKind<'_>,
    ctx: &CheckContext<'_, '_>,
    out: &mut Diagnostics,
) -> Result<(), AllocError>
    requires { IsCheckable kind.node.now ctx.now }
    ensures { Tells result (rows_by kinds.Program (sight kind.entry.node.now ctx.now)) out.old
        out.new }
{
    javascript::check_duplicate_class_elements(alloc, ctx, out)?;
    javascript::check_unresolved_exports(alloc, kind, ctx, out)?;
    javascript::check_import_value_redeclarations(alloc, ctx, out)?;
    typescript::check_ts_export_assignment_in_program(alloc, kind, ctx, out)
}
