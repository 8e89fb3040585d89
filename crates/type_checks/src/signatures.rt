//! Early errors of the parameters of signatures.
ghost use Rattle.std.specs.Prelude.{◌≡◌, ◌&&◌, [], codes, length, nat_lt};
ghost use Rattle.semantic_kinds.specs.declared.role.Role.TheVariants as roles;
ghost use Rattle.semantic_tree.specs.BoundNames.{bound_names};
ghost use Rattle.semantic_tree.specs.Views.{all_in, has_text};
ghost use Rattle.check_model.specs.Methods as rows;
ghost use Rattle.check_model.specs.Search.{each_after};
ghost use Rattle.check_context.specs.Handed.{sight};
ghost use Rattle.check_context.specs.Tells.{Tells};
ghost use Rattle.type_checks.specs.Repeats.{rows_after, HasLast};

use check_context::{CheckContext, tell};
use indexmap::IndexMap;
use node_rules::bound_identifiers::identifiers_by_role;
use node_rules::questions::reads;
use semantic_diagnostics::Diagnostics;
use semantic_diagnostics::makers::redeclaration;
use semantic_syntax::Span;
use semantic_tree::{AstKind, Role};
use std::alloc::{AllocError, Global};

/// Whether a node has two parameters or more.
fn has_two_items(kind: AstKind<'_>) -> bool
    ensures { result ≡ nat_lt 1 (length (all_in roles.Items kind.entry.node.now)) }
{
    let mut left = kind.children(Role::Items);
    left.next().is_some() && left.next().is_some()
}

/// Tells of a name that stood elsewhere before.
#[tactic(auto, using(check_context::proofs::Telling::made))]
fn tell_repeated(
    alloc: Global,
    before: Option<Span>,
    name: AstKind<'_>,
    out: &mut Diagnostics,
) -> Result<(), AllocError>
    ensures { Tells result (rows_after before name.entry.node.now) out.old out.new }
{
    let Some(before) = before else {
        return Ok(());
    };
    let text = name.text();
    tell(
        redeclaration(alloc, text.as_str(), before, name.span()),
        out,
    )
}

/// Tells of each name that a node binds again, by a map that has none of them yet.
fn tell_each_repeated<'a>(
    alloc: Global,
    kind: AstKind<'a>,
    seen: &mut IndexMap<&'a str, Span>,
    out: &mut Diagnostics,
) -> Result<(), AllocError>
    requires { HasLast [] seen.old }
    ensures { Tells result (each_after rows.repeated_rows [] (bound_names kind.entry.node.now))
        out.old out.new }
{
    let names = identifiers_by_role(alloc, kind)?;
    for name in names.iter() {
        let before = seen.insert(name.node().text.as_str(), name.span())?;
        tell_repeated(alloc, before, name, out)?;
    }
    Ok(())
}

/// The parameters of a signature have different names (TypeScript 2300).
#[tactic(auto, using(check_context::proofs::Telling::telling))]
pub fn check_formal_parameters<'a>(
    alloc: Global,
    kind: AstKind<'a>,
    ctx: &CheckContext<'a, '_>,
    out: &mut Diagnostics,
) -> Result<(), AllocError>
    ensures { Tells result (rows.check_formal_parameters (sight kind.entry.node.now ctx.now))
        out.old out.new }
{
    if reads(kind, "signature") && has_two_items(kind) {
        let mut seen = IndexMap::new(alloc);
        tell_each_repeated(alloc, kind, &mut seen, out)
    } else {
        Ok(())
    }
}
