//! Laws over walks: each is the contract of a function that does nothing.
ghost use Rattle.std.specs.Prelude.{◌≡◌, ◌∷◌, ◌++◌, [], List, Bool, None, map, flat_map, slice_index};
ghost use Rattle.semantic_tree.specs.Faults.{first_fault};
ghost use Rattle.semantic_tree.specs.Tree.{Tree, IsNumbered};
ghost use Rattle.semantic_tree.specs.declared.node.Node.{Node};
ghost use Rattle.semantic_model.specs.Entries.{Among};
ghost use Rattle.semantic_model.specs.Event.{events_of, written_declarations};
ghost use Rattle.semantic_model.specs.Fold.{start};
ghost use Rattle.semantic_model.specs.Hoist.{run};
ghost use Rattle.semantic_model.specs.Place.{Place};
ghost use Rattle.semantic_model.specs.Step.{Step, entering, steps};
ghost use Rattle.walk_model.specs.WalkState.{nothing_made};
ghost use Rattle.walk_model.specs.Walks.{after_all};
ghost use Rattle.node_store.specs.Outward.{above};
ghost use Rattle.node_store.specs.PathIn.{path_in};
ghost use Rattle.node_store.specs.Store.{path_to};
ghost use Rattle.semantic_walk.specs.Folded.{ShowsFold};
ghost use Rattle.promise.specs.Kept.{node_list};
ghost use Rattle.semantic_walk.specs.Stored.{empty_store, stored_after};

/// At each place of the walk over a program the tables show what the declarations so far fold into.
pub fn a_walk_shows_the_fold()
    ensures { (program : Tree) → first_fault program ≡ None → (done more : List Step)
        → steps program ≡ done ++ more →
        ShowsFold (after_all (written_declarations (steps program)) nothing_made done)
        (run start (flat_map (events_of (written_declarations (steps program))) done)) }
{}

/// Stores tell the path of the definitions. In the list of a program's nodes the parents lead from each node along its
/// path to the root: `ids` says so of their ids, `nodes` of what they show. Where a walk that enters and leaves nodes
/// stands at a node, its store has that path, whether it keeps all nodes or a stack.
pub fn stores_tell_the_path()
    ensures ids { (program : Tree) → IsNumbered program.root → (p : Place)
        → Among (entering p) (steps program)
        → above (node_list program).parents p.node.node_id ≡ map (λ (n : Node). n.node_id) p.path }
    ensures parents { (program : Tree) → IsNumbered program.root → (p : Place)
        → Among (entering p) (steps program) → (parent : Node) (path : List Node)
        → p.path ≡ parent ∷ path
        → slice_index (node_list program).parents p.node.node_id ≡ parent.node_id }
    ensures nodes { (program : Tree) → IsNumbered program.root → (p : Place)
        → Among (entering p) (steps program)
        → path_in (node_list program) p.node.node_id ≡ p.node ∷ p.path }
    ensures walk { (program : Tree) (keeps : Bool) (done more : List Step) (p : Place)
        → steps program ≡ done ++ entering p ∷ more
        → path_to (stored_after (empty_store keeps) (done ++ entering p ∷ [])) ≡ p.node ∷ p.path }
{}
