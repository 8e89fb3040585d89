//! Laws over the states of namespaces.

ghost use Rattle.std.specs.Prelude.{◌≡◌};
ghost use Rattle.semantic_tree.specs.Tree.{Tree, IsNumbered};
ghost use Rattle.semantic_model.specs.Entries.{Among};
ghost use Rattle.semantic_model.specs.Place.{Place};
ghost use Rattle.semantic_model.specs.Step.{entering, steps};
ghost use Rattle.semantic_model.specs.Namespace.{InstanceState, Item, instance_state, nodes_around};
ghost use Rattle.namespace_states.specs.Reaches.{IsGreatestReached, statement_at};

/// The search by rounds, bounded by the nodes of the program, finds the greatest state that is reached in any number
/// of steps.
pub fn searched_states_are_greatest()
    ensures { (program : Tree) (p : Place) → IsNumbered program.root
        → Among (entering p) (steps program)
        → IsGreatestReached (statement_at p)
        (instance_state p.node p.path (nodes_around p.node p.path)) }
{}

/// Only one state is the greatest that is reached.
pub fn greatest_states_are_equal()
    ensures { (i : Item) (s t : InstanceState) → IsGreatestReached i s → IsGreatestReached i t
        → s ≡ t }
{}
