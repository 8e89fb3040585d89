//! Laws of the generated script: each is the contract of a function that does nothing.
ghost use Rattle.std.specs.Prelude.{◌≡◌, ℕ, ◌+◌, ◌*◌, ◌≤◌, None};
ghost use Rattle.semantic_tree.specs.Children.{node_count};
ghost use Rattle.semantic_tree.specs.Faults.{first_fault};
ghost use Rattle.generated_tree.specs.Generated.{generated, most_functions};

/// A generated script has no fault.
pub fn a_generated_script_has_no_fault()
    ensures { (n : ℕ) → n ≤ most_functions → first_fault (generated n) ≡ None }
{}

/// It has fourteen nodes for each function, and its root.
pub fn a_function_has_fourteen_nodes()
    ensures { (n : ℕ) → node_count (generated n).root ≡ 14 * n + 1 }
{}
