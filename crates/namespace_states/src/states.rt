//! The states of all namespaces of a program, each found once (TypeScript's `getModuleInstanceState` in binder.ts).

ghost use Rattle.std.specs.Prelude.{◌≡◌, [], true, length, map, IfOk};
ghost use Rattle.semantic_tree.specs.Children.{node_count};
ghost use Rattle.semantic_tree.specs.Tree.{IsNumbered};
ghost use Rattle.semantic_model.specs.Entries.{Among};
ghost use Rattle.semantic_kinds.specs.declared.kind.AstType.TheVariants.{TSNamespaceDeclaration as namespace_declaration};
ghost use Rattle.semantic_tree.specs.Views.{is};
ghost use Rattle.semantic_model.specs.Place.{Place};
ghost use Rattle.semantic_model.specs.Step.{entering, steps};
ghost use Rattle.semantic_model.specs.Namespace.{Item, instance_state, nodes_around};
ghost use Rattle.namespace_states.specs.Reaches.{IsGreatestReached, statement_at};
ghost use Rattle.namespace_states.specs.Statements.{items_from};
ghost use Rattle.namespace_states.specs.Led.{nothing_led, led_from};
ghost use Rattle.namespace_states.specs.InstanceStates.{state_of};
ghost use Rattle.namespace_states.specs.StatesByMarks.{state_by, states_by, state_in, AreStatesOf, AreSearched};

use crate::instance_state::ModuleInstanceState;
use crate::leads::Leads;
use crate::program_pass::leads_of;
use reachability::{reached, rows_of};
use semantic_syntax::NodeId;
use semantic_tree::{AstKind, AstType, Program};
use std::alloc::{AllocError, Global};
use std::marker::Model;

/// The states of the namespaces of a program. Contracts see the state of each node as a statement, by its id.
#[derive(Drop)]
pub struct NamespaceStates {
    states: Vec<ModuleInstanceState>,
}

impl Model for NamespaceStates {
    ghost use Rattle.std.specs.Prelude.{List, map};
    ghost use Rattle.std.specs.Coded.{codes};
    ghost use Rattle.semantic_model.specs.Namespace.{InstanceState};
    ghost use Rattle.namespace_states.specs.InstanceStates.{state_of};

    ghost Value = { List InstanceState };

    ghost coded = { Prim.hlevel codes };

    ghost view = { λ s. map state_of s.states.items };
}

/// The state of a statement that reaches a value, or a `const` enum (TypeScript's `ModuleInstanceState`).
fn state_by(value: bool, const_enum: bool) -> ModuleInstanceState
    ensures { state_of result ≡ state_by value const_enum }
{
    if value {
        ModuleInstanceState::Instantiated
    } else if const_enum {
        ModuleInstanceState::ConstEnumOnly
    } else {
        ModuleInstanceState::NonInstantiated
    }
}

/// The states of statements, of which some reach values and some `const` enums.
#[tactic(auto, using(crate::proofs::FoundStates::turns))]
fn states_by(
    alloc: Global,
    values: &[bool],
    const_enums: &[bool],
) -> Result<Vec<ModuleInstanceState>, AllocError>
    requires { length const_enums.now ≡ length values.now }
    ensures { IfOk result (λ states. map state_of states.items
        ≡ states_by values.now const_enums.now) }
{
    let mut states = Vec::new(alloc);
    for id in 0..values.len() {
        states.push(state_by(values[id], const_enums[id]))?;
    }
    Ok(states)
}

/// The states of the nodes of a program as statements, by what leads where. A statement has the state of what it
/// reaches, so values and `const` enums are searched from backward.
fn search_back(
    alloc: Global,
    root: AstKind<'_>,
    count: u32,
    leads: &Leads,
) -> Result<NamespaceStates, AllocError>
    requires numbered { IsNumbered root.node.now }
    requires count { count ≡ node_count root.node.now }
    requires leads { leads.now ≡ led_from [] root.node.now nothing_led }
    ensures { IfOk result (λ made. (i : Item) → Among i (items_from root.entry.node.now)
        → IsGreatestReached i (state_in made i.node.node_id)) }
{
    let rows = rows_of(alloc, count as usize, leads.backward.as_slice())?;
    let values = reached(alloc, &rows, leads.values.as_slice())?;
    let const_enums = reached(alloc, &rows, leads.const_enums.as_slice())?;
    let states = states_by(alloc, values.as_slice(), const_enums.as_slice())?;
    Ok(NamespaceStates { states })
}

impl NamespaceStates {
    /// The states of a program. Takes time linear in the nodes, but that each exported name asks the statement lists
    /// around it. The only error is want of memory.
    pub fn of(alloc: Global, program: &Program) -> Result<NamespaceStates, AllocError>
        ensures reached { IfOk result (λ made. AreStatesOf program.now made) }
        ensures searched { IfOk result (λ made. AreSearched program.now made) }
    {
        let leads = leads_of(alloc, program)?;
        search_back(alloc, program.root(), program.node_count(), &leads)
    }

    /// The states of the namespaces of a program. Takes no memory where there are none.
    pub fn of_namespaces(alloc: Global, program: &Program) -> Result<NamespaceStates, AllocError>
        ensures reached { IfOk result
            (λ made. (p : Place) → Among (entering p) (steps program.now)
            → is namespace_declaration p.node ≡ true
            → IsGreatestReached (statement_at p) (state_in made p.node.node_id)) }
        ensures searched { IfOk result
            (λ made. (p : Place) → Among (entering p) (steps program.now)
            → is namespace_declaration p.node ≡ true
            → state_in made p.node.node_id
            ≡ instance_state p.node p.path (nodes_around p.node p.path)) }
    {
        if 0 < program.count_of(AstType::TSNamespaceDeclaration) {
            NamespaceStates::of(alloc, program)
        } else {
            Ok(NamespaceStates {
                states: Vec::new(alloc),
            })
        }
    }

    /// Whether the namespace has values, nothing but `const` enums, or only types.
    pub fn state(&self, namespace: NodeId) -> ModuleInstanceState
        ensures { state_of result ≡ state_in self.now namespace }
    {
        match self.states.get(namespace.index()) {
            Some(state) => *state,
            None => ModuleInstanceState::NonInstantiated,
        }
    }
}
