//! Functions that are declared.
ghost use Rattle.std.specs.Prelude.{◌≡◌};
ghost use Rattle.check_model.specs.Bodies as rows;
ghost use Rattle.check_context.specs.Handed.{sight, IsContext};

use crate::context::CheckContext;
use node_rules::questions::reads;
use semantic_tree::{AstKind, AstType};

/// Whether the node is a function that is declared, and no expression.
pub fn is_declared_function(kind: AstKind<'_>) -> bool
    ensures { result ≡ rows.is_declared_function kind.entry.node.now }
{
    kind.ty() == AstType::Function && (reads(kind, "declaration") || reads(kind, "ts-declare"))
}

/// Whether the node is a function that is declared as a branch of an `if` in sloppy code (ECMAScript, Annex B.3.3).
pub fn is_function_decl_part_of_if_statement(kind: AstKind<'_>, ctx: &CheckContext<'_, '_>) -> bool
    requires { IsContext ctx.now }
    ensures { result ≡ rows.is_function_decl_part_of_if_statement
        (sight kind.entry.node.now ctx.now) }
{
    is_declared_function(kind) && !ctx.is_strict() && ctx.is_under(AstType::IfStatement)
}
