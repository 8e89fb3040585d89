//! Whether a node may be checked.
ghost use Rattle.std.specs.Prelude.{◌≡◌, true};
ghost use Rattle.checker.specs.Checkable as condition;
ghost use Rattle.checker.specs.Checkable.{IsCheckable};

use check_context::CheckContext;
use expression_checks::has_sound_elements;
use semantic_tree::AstKind;
use type_checks::has_good_type;

/// Whether each condition holds.
fn meets_each(kind: AstKind<'_>, ctx: &CheckContext<'_, '_>) -> bool
    ensures { result ≡ condition.is_checkable kind.entry.node.now ctx.now }
{
    ctx.fits_node(kind) && has_good_type(kind, ctx) && has_sound_elements(ctx)
}

/// Whether the node may be handed to `check` with the context: it may where both are those of a program and of its
/// analysis, so this is for who can't tell. Takes time linear in the elements of classes.
pub fn is_checkable(kind: AstKind<'_>, ctx: &CheckContext<'_, '_>) -> bool
    ensures fits { result ≡ true → IsCheckable kind.entry.node.now ctx.now }
    ensures complete { IsCheckable kind.entry.node.now ctx.now → result ≡ true }
{
    meets_each(kind, ctx)
}
