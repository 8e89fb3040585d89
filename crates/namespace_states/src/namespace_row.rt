//! The binder row of a namespace.

ghost use Rattle.std.specs.Prelude.{◌≡◌};
ghost use Rattle.semantic_model.specs.Place.{Place};
ghost use Rattle.semantic_model.specs.Binder as binder;
ghost use Rattle.namespace_states.specs.InstanceStates.{state_of};

use crate::instance_state::ModuleInstanceState;
use node_rules::rows::{Row, ambient};
use semantic_syntax::SymbolFlags;
use semantic_tree::AstKind;

/// A namespace, by its state: one that is nothing but types is no value (TypeScript's `ValueModuleExcludes` and
/// `NamespaceModuleExcludes`).
pub fn namespace_row(namespace: AstKind<'_>, state: ModuleInstanceState) -> Row
    ensures { (p : Place) → p.node ≡ namespace.entry.node.now
        → binder.namespace_row (state_of state) p
        ≡ binder.declare_here p result.flags.bits result.excluded.bits (binder.ids p.node) }
{
    match state {
        ModuleInstanceState::NonInstantiated => Row {
            flags: ambient(namespace, SymbolFlags::NamespaceModule),
            excluded: SymbolFlags::NamespaceModuleExcludes,
        },
        _ => Row {
            flags: ambient(namespace, SymbolFlags::ValueModule),
            excluded: SymbolFlags::ValueModuleExcludes,
        },
    }
}
