//! Early errors of private names.
ghost use Rattle.std.specs.Prelude.{◌≡◌, ◌<◌, Some, flat_map, length};
ghost use Rattle.std.specs.List.{AllByRecursion, list_any};
ghost use Rattle.std.specs.Str.{chars};
ghost use Rattle.class_table.specs.Lists.{uses_in};
ghost use Rattle.class_table.specs.Outward.{classes_outward};
ghost use Rattle.class_table.specs.Seen.{use_seen};
ghost use Rattle.check_model.specs.Classes as rows;
ghost use Rattle.check_model.specs.Context.{classes_from};
ghost use Rattle.check_context.specs.Handed.{around, IsContext};
ghost use Rattle.check_context.specs.Tells.{Tells};

use check_context::{CheckContext, tell};
use class_table::{ClassTable, PrivateIdentifierReference};
use semantic_diagnostics::Diagnostics;
use semantic_diagnostics::makers::private_field_undeclared;
use semantic_syntax::{ClassId, Ident};
use std::alloc::{AllocError, Global};

/// The classes outward from one are in the table.
fn attest_around(class: ClassId, classes: &ClassTable<'_>)
    requires { class < length classes.now.nodes }
    ensures { AllByRecursion (λ c. c < length classes.now.nodes)
        (classes_outward classes.now.parents class) }
{
    let _class = class;
    let _count = classes.parent_ids.len();
}

/// Whether the class or one around it defines the private name, by a look-up in each (ECMAScript 15.7.1,
/// AllPrivateIdentifiersValid).
fn is_defined(name: Ident<'_>, class: ClassId, classes: &ClassTable<'_>) -> bool
    requires { class < length classes.now.nodes }
    ensures { result ≡ list_any (rows.defines_private (chars name.entry.text.now))
        (classes_from classes.now (Some class)) }
{
    attest_around(class, classes);
    for around in classes.ancestors(class) {
        if classes.has_private_definition(around, name) {
            return true;
        }
    }
    false
}

/// Tells of the use of a private name that no class around it defines.
#[tactic(auto, using(check_context::proofs::Telling::made))]
fn tell_use(
    alloc: Global,
    used: &PrivateIdentifierReference<'_>,
    class: ClassId,
    classes: &ClassTable<'_>,
    out: &mut Diagnostics,
) -> Result<(), AllocError>
    requires { class < length classes.now.nodes }
    ensures { Tells result (rows.use_rows (classes_from classes.now (Some class))
        (use_seen used.now)) out.old out.new }
{
    if is_defined(used.name, class, classes) {
        return Ok(());
    }
    tell(
        private_field_undeclared(alloc, used.name.as_str(), used.span),
        out,
    )
}

/// Tells of the uses of private names in a class that neither it nor a class around it defines.
#[tactic(auto, using(check_context::proofs::Telling::loop_telling))]
fn tell_uses(
    alloc: Global,
    class: ClassId,
    classes: &ClassTable<'_>,
    out: &mut Diagnostics,
) -> Result<(), AllocError>
    requires { class < length classes.now.nodes }
    ensures { Tells result (flat_map (rows.use_rows (classes_from classes.now (Some class)))
        (uses_in classes.now class)) out.old out.new }
{
    for used in classes.iter_private_identifiers(class) {
        tell_use(alloc, used, class, classes, out)?;
    }
    Ok(())
}

/// Tells of the uses of private names in the current class that neither it nor a class around it defines.
#[tactic(auto, using(check_context::proofs::Telling::telling))]
pub(crate) fn tell_private_uses(
    alloc: Global,
    ctx: &CheckContext<'_, '_>,
    out: &mut Diagnostics,
) -> Result<(), AllocError>
    requires { IsContext ctx.now }
    ensures { Tells result (rows.private_use_rows (around ctx.now)) out.old out.new }
{
    match ctx.classes.current_class_id {
        Some(class) => tell_uses(alloc, class, &ctx.classes.classes, out),
        None => Ok(()),
    }
}
