//! A law on the states of namespaces.
ghost use Rattle.std.specs.Prelude.{◌≡◌, ℕ, Some, None, Ok, true, slice_get};
ghost use Rattle.semantic_syntax.specs.Tables.{Name, Symbol};
ghost use Rattle.semantic_tree.specs.Faults.{first_fault};
ghost use Rattle.semantic_tree.specs.Tree.{Tree, IsNumbered};
ghost use Rattle.semantic_model.specs.Analysis.{analysis_of};
ghost use Rattle.semantic_model.specs.NamespaceStates.{namespace_states};
ghost use Rattle.semantic_model.specs.Step.{steps};
ghost use Rattle.semantic_model.specs.TablesOf.{tables_of};
ghost use Rattle.rename_model.specs.Refusal.{rename};
ghost use Rattle.rename_model.specs.Renamed.{bears_name};
ghost use Rattle.renaming_laws.specs.LookedUp.{exports_neither, names_chosen};
ghost use Rattle.swapped_checks.specs.SwappedPrograms.{holds_within};

/// A renaming keeps the states of namespaces, by which they are more than types. A state is found through the names that
/// specifiers export, as `a` by `export { a }`, in the lists of statements around: not where scopes would find them. So it
/// stays where no specifier exports the old name or the new one, whatever else has them, or where all that is declared or
/// exported by a specifier under one of the two names belongs to the symbol.
pub fn a_renaming_keeps_namespace_states()
    ensures unexported { (p q : Tree) (s : ℕ) (y : Symbol) (new : Name) → first_fault p ≡ None
        → IsNumbered p.root → slice_get (tables_of p).symbols s ≡ Some y
        → holds_within (exports_neither y.name new) p.root ≡ true → rename p s new ≡ Ok q
        → namespace_states (steps q) ≡ namespace_states (steps p) }
    ensures of_one_symbol { (p q : Tree) (s : ℕ) (y : Symbol) (new : Name) → first_fault p ≡ None
        → IsNumbered p.root → slice_get (tables_of p).symbols s ≡ Some y
        → holds_within (names_chosen (bears_name (analysis_of p) s) y.name new) p.root ≡ true
        → rename p s new ≡ Ok q
        → namespace_states (steps q) ≡ namespace_states (steps p) }
{}
