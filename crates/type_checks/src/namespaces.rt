//! Early errors of namespaces and of `global`.
ghost use Rattle.std.specs.Prelude.{◌≡◌, ◌||◌, not};
ghost use Rattle.semantic_kinds.specs.declared.mark.Mark.TheVariants as mark;
ghost use Rattle.semantic_tree.specs.Views.{has};
ghost use Rattle.semantic_diagnostics.specs.Types as tell;
ghost use Rattle.check_model.specs.Groups.{is_module_kind, under_namespaces};
ghost use Rattle.check_model.specs.Namespaces as rows;
ghost use Rattle.check_model.specs.Search.{row_if};
ghost use Rattle.check_context.specs.Handed.{sight, IsContext, IsHanded};
ghost use Rattle.check_context.specs.Tells.{Tells};

use crate::exports::tell_block;
use crate::global_word::global_span;
use crate::places::Places;
use check_context::{CheckContext, tell};
use semantic_diagnostics::Diagnostics;
use semantic_diagnostics::makers::{
    global_scope_augmentation_should_have_declare_modifier, not_allowed_namespace_declaration,
};
use semantic_tree::{AstKind, AstType, Mark, Role};
use std::alloc::{AllocError, Global};

/// Whether nodes of the kind are namespaces, external modules or `global`.
pub(crate) fn is_module_kind(kind: AstType) -> bool
    ensures { result ≡ is_module_kind kind }
{
    matches!(
        kind,
        AstType::TSExternalModuleDeclaration
            | AstType::TSNamespaceDeclaration
            | AstType::TSGlobalDeclaration
    )
}

/// Whether the node is the top of a program, or of a namespace or module.
fn is_top(kind: AstKind<'_>) -> bool
    ensures { result ≡ rows.is_top kind.entry.node.now }
{
    matches!(kind.ty(), AstType::Program | AstType::TSModuleBlock) || is_module_kind(kind.ty())
}

/// Tells of a namespace or `global` elsewhere than at such a top (`TS(1235)`).
#[tactic(auto, using(check_context::proofs::Telling::made))]
fn tell_place(
    alloc: Global,
    kind: AstKind<'_>,
    ctx: &CheckContext<'_, '_>,
    out: &mut Diagnostics,
) -> Result<(), AllocError>
    requires { IsContext ctx.now }
    ensures { Tells result (rows.place_rows (sight kind.entry.node.now ctx.now)) out.old out.new }
{
    let mut places = Places::around(ctx);
    let Some(place) = places.next() else {
        return Ok(());
    };
    if is_top(place) {
        return Ok(());
    }
    tell(not_allowed_namespace_declaration(alloc, kind.span()), out)
}

/// The body of the innermost of directly nested namespaces.
#[tactic(auto, using(crate::proofs::UnderNamespaces::under))]
fn under_namespaces(kind: AstKind<'_>) -> AstKind<'_>
    ensures { result.node.now ≡ under_namespaces kind.entry.node.now }
{
    let mut inner = kind;
    while inner.ty() == AstType::TSNamespaceDeclaration {
        match inner.child(Role::Body) {
            Some(body) => inner = body,
            None => return inner,
        }
    }
    inner
}

/// A namespace stands at the top of a program, a namespace or a module (`TS(1235)`), and an export assignment is the
/// only export of its body (`TS(2309)`).
#[tactic(auto, using(check_context::proofs::Telling::telling))]
pub fn check_ts_namespace_declaration<'a>(
    alloc: Global,
    kind: AstKind<'a>,
    ctx: &CheckContext<'a, '_>,
    out: &mut Diagnostics,
) -> Result<(), AllocError>
    requires { IsContext ctx.now }
    ensures { Tells result (rows.check_ts_namespace_declaration (sight kind.entry.node.now ctx.now))
        out.old out.new }
{
    tell_place(alloc, kind, ctx, out)?;
    tell_block(alloc, under_namespaces(kind), out)
}

/// Tells of a `global` that is neither declared nor ambient (`TS(2670)`).
#[tactic(auto, using(check_context::proofs::Telling::made))]
fn tell_undeclared(
    alloc: Global,
    kind: AstKind<'_>,
    ctx: &CheckContext<'_, '_>,
    out: &mut Diagnostics,
) -> Result<(), AllocError>
    requires { IsHanded kind.node.now ctx.now }
    ensures { let s = sight kind.entry.node.now ctx.now in
        Tells result (row_if (not (has mark.Declare s.node || s.is_ambient))
        (tell.global_scope_augmentation_should_have_declare_modifier (rows.global_span s))) out.old
        out.new }
{
    if kind.has_mark(Mark::Declare) || ctx.in_ambient {
        return Ok(());
    }
    let word = global_span(kind, ctx);
    tell(
        global_scope_augmentation_should_have_declare_modifier(alloc, word),
        out,
    )
}

/// `global` stands at the top of a program, a namespace or a module (`TS(1235)`), and is declared (`TS(2670)`).
#[tactic(auto, using(check_context::proofs::Telling::telling))]
pub fn check_ts_global_declaration<'a>(
    alloc: Global,
    kind: AstKind<'a>,
    ctx: &CheckContext<'a, '_>,
    out: &mut Diagnostics,
) -> Result<(), AllocError>
    requires { IsHanded kind.node.now ctx.now }
    ensures { Tells result (rows.check_ts_global_declaration (sight kind.entry.node.now ctx.now))
        out.old out.new }
{
    tell_place(alloc, kind, ctx, out)?;
    tell_undeclared(alloc, kind, ctx, out)
}
