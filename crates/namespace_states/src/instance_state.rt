//! Whether a namespace is more than types.

ghost use Rattle.std.specs.Prelude.{◌≡◌, IfOk};
ghost use Rattle.semantic_model.specs.Entries.{Among};
ghost use Rattle.semantic_model.specs.Place.{Place};
ghost use Rattle.semantic_model.specs.Step.{entering, steps};
ghost use Rattle.semantic_model.specs.Namespace.{instance_state, nodes_around};
ghost use Rattle.namespace_states.specs.Reaches.{IsGreatestReached, statement_at};
ghost use Rattle.namespace_states.specs.InstanceStates.{state_of};

use crate::states::NamespaceStates;
use semantic_syntax::NodeId;
use semantic_tree::Program;
use std::alloc::{AllocError, Global};

/// What a namespace gives when it runs (TypeScript's `ModuleInstanceState`).
#[derive(Clone, Copy, PartialEq, Eq, Debug)]
pub enum ModuleInstanceState {
    /// Nothing but types.
    NonInstantiated,
    /// A value.
    Instantiated,
    /// Nothing but types and `const` enums.
    ConstEnumOnly,
}

/// The state of the namespace with the id: whether it is more than types. It is the greatest state that a statement
/// counts as which the namespace reaches in any number of steps. Takes time linear in the program: for several
/// namespaces ask `NamespaceStates`. The only error is want of memory.
pub fn module_instance_state(
    alloc: Global,
    p: &Program,
    n: NodeId,
) -> Result<ModuleInstanceState, AllocError>
    ensures reached { (place : Place) → Among (entering place) (steps p.now)
        → place.node.node_id ≡ n →
        IfOk result (λ s. IsGreatestReached (statement_at place) (state_of s)) }
    ensures searched { (place : Place) → Among (entering place) (steps p.now)
        → place.node.node_id ≡ n →
        IfOk result (λ s. state_of s
        ≡ instance_state place.node place.path (nodes_around place.node place.path)) }
{
    let states = NamespaceStates::of(alloc, p)?;
    Ok(states.state(n))
}
