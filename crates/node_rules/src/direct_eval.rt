//! Direct calls of `eval` (ECMAScript 13.3.6.1, 19.2.1.1).

ghost use Rattle.std.specs.Prelude.{◌≡◌, ◌&&◌, codes};
ghost use Rattle.semantic_kinds.specs.declared.kind.AstType.TheVariants.{IdentifierReference as identifier_reference};
ghost use Rattle.semantic_kinds.specs.declared.role.Role.TheVariants.{Callee as callee_role};
ghost use Rattle.semantic_tree.specs.Unwrapped.{inner_expression};
ghost use Rattle.semantic_tree.specs.Views.{is, holds, child_of, has_text};
ghost use Rattle.semantic_model.specs.TablesOf.{is_direct_eval};

use crate::questions::reads;
use semantic_tree::{AstKind, AstType, Mark, Role};

/// Whether the expression is the name `eval`, maybe in parentheses or under a type.
fn is_eval_name(callee: AstKind<'_>) -> bool
    ensures { result ≡ (is identifier_reference (inner_expression callee.entry.node.now)
        && has_text (codes "eval") (inner_expression callee.entry.node.now)) }
{
    let inner = callee.get_inner_expression();
    inner.ty() == AstType::IdentifierReference && reads(inner, "eval")
}

/// Whether the callee of a node is the name `eval`.
fn calls_eval(kind: AstKind<'_>) -> bool
    ensures { result ≡ holds (λ callee. is identifier_reference (inner_expression callee)
        && has_text (codes "eval") (inner_expression callee))
        (child_of callee_role kind.entry.node.now) }
{
    match kind.child(Role::Callee) {
        Some(callee) => is_eval_name(callee),
        None => false,
    }
}

/// Whether the node is a call of `eval` by its name (ECMAScript 13.3.6.1).
pub fn is_direct_eval(kind: AstKind<'_>) -> bool
    ensures { result ≡ is_direct_eval kind.entry.node.now }
{
    kind.ty() == AstType::CallExpression && !kind.has_mark(Mark::Optional) && calls_eval(kind)
}
