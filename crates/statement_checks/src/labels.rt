//! Early errors of labels.
ghost use Rattle.std.specs.Prelude.{◌≡◌, option_map};
ghost use Rattle.semantic_tree.specs.ChildIter.{shown};
ghost use Rattle.check_model.specs.Jumps as rows;
ghost use Rattle.check_context.specs.Handed.{around, sight, IsContext};
ghost use Rattle.check_context.specs.Tells.{Tells};

use check_context::{CheckContext, is_same, tell};
use semantic_diagnostics::Diagnostics;
use semantic_diagnostics::makers::label_redeclaration;
use semantic_tree::{AstKind, AstType, Role};
use std::alloc::{AllocError, Global};

/// Whether no jump leaves the node, and no label around counts in it: a function or a static block (ECMAScript
/// 15.2.1, 15.7.1, ContainsDuplicateLabels).
pub(crate) fn is_boundary(kind: AstKind<'_>) -> bool
    ensures { result ≡ rows.stops_jumps kind.entry.node.now }
{
    matches!(
        kind.ty(),
        AstType::Function | AstType::ArrowFunctionExpression | AstType::StaticBlock
    )
}

/// Whether the node is a statement of the label.
pub(crate) fn is_labelled_by(label: AstKind<'_>, kind: AstKind<'_>) -> bool
    ensures { result ≡ rows.is_labelled_by label.entry.node.now kind.entry.node.now }
{
    if kind.ty() == AstType::LabeledStatement {
        match kind.child(Role::Label) {
            Some(own) => is_same(own, label),
            None => false,
        }
    } else {
        false
    }
}

/// The innermost statement around, in the same function, that has the label too.
fn same_label_around<'a>(label: AstKind<'_>, ctx: &CheckContext<'a, '_>) -> Option<AstKind<'a>>
    requires { IsContext ctx.now }
    ensures { option_map shown result
        ≡ rows.same_label_around label.entry.node.now (around ctx.now).path }
{
    let mut left = ctx.above();
    while let Some(kind) = left.next() {
        if is_boundary(kind) {
            return None;
        }
        if is_labelled_by(label, kind) {
            return Some(kind);
        }
    }
    None
}

/// Tells of a label that a statement around has too.
#[tactic(auto, using(check_context::proofs::Telling::made))]
fn tell_same_label(
    alloc: Global,
    label: AstKind<'_>,
    ctx: &CheckContext<'_, '_>,
    out: &mut Diagnostics,
) -> Result<(), AllocError>
    requires { IsContext ctx.now }
    ensures { Tells result (rows.own_label_rows (around ctx.now).path label.entry.node.now) out.old
        out.new }
{
    let Some(outer) = same_label_around(label, ctx) else {
        return Ok(());
    };
    let Some(first) = outer.child(Role::Label) else {
        return Ok(());
    };
    let name = label.text();
    tell(
        label_redeclaration(alloc, name.as_str(), first.span(), label.span()),
        out,
    )
}

/// A label is new in its function, inside the labels around it (ECMAScript 14.13.1, ContainsDuplicateLabels).
#[tactic(auto, using(check_context::proofs::Telling::telling))]
pub fn check_labeled_statement<'a>(
    alloc: Global,
    kind: AstKind<'a>,
    ctx: &CheckContext<'a, '_>,
    out: &mut Diagnostics,
) -> Result<(), AllocError>
    requires { IsContext ctx.now }
    ensures { Tells result (rows.check_labeled_statement (sight kind.entry.node.now ctx.now))
        out.old out.new }
{
    match kind.child(Role::Label) {
        Some(label) => tell_same_label(alloc, label, ctx, out),
        None => Ok(()),
    }
}
