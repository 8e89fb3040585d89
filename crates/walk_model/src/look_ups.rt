//! Laws of how many scopes are asked. Each holds of every program without a fault.
ghost use Rattle.std.specs.Prelude.{◌≡◌, ◌≤◌, ◌+◌, None};
ghost use Rattle.semantic_tree.specs.Faults.{first_fault};
ghost use Rattle.semantic_tree.specs.Tree.{Tree};
ghost use Rattle.semantic_model.specs.Event.{written_declarations};
ghost use Rattle.semantic_model.specs.Step.{steps};
ghost use Rattle.semantic_model.specs.TablesOf.{tables_of};
ghost use Rattle.walk_model.specs.WalkState.{nothing_made};
ghost use Rattle.walk_model.specs.Walks.{after_all};
ghost use Rattle.walk_model.specs.Probes.{probes, probes_of_steps, probes_in_end, depths};

/// A walk asks as many scopes as the look-ups of the program's references, though it looks a reference up again at the
/// end of each header around it: it begins where the last look-up has ended.
pub fn walk_asks_once()
    ensures { (p : Tree) → first_fault p ≡ None →
        probes_of_steps (written_declarations (steps p)) nothing_made (steps p) + probes_in_end
        (after_all (written_declarations (steps p)) nothing_made (steps p)) ≡ probes p }
{}

/// No look-up asks more scopes than there are around its reference.
pub fn depths_bound_what_is_asked()
    ensures { (p : Tree) → first_fault p ≡ None → probes p ≤ depths (tables_of p) }
{}
