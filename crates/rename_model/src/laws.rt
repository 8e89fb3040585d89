//! Laws over the definitions of the renamer.
ghost use Rattle.std.specs.Prelude.{◌≡◌, ◌↔◌, ℕ, [], Bool, Some, None, false, true, Ok, Err, bytes_eq, codes, slice_get};
ghost use Rattle.semantic_syntax.specs.Tables.{Name, Symbol};
ghost use Rattle.semantic_tree.specs.Children.{node_count};
ghost use Rattle.semantic_tree.specs.Faults.{first_fault};
ghost use Rattle.semantic_tree.specs.Tree.{Tree, IsNumbered};
ghost use Rattle.semantic_model.specs.TablesOf.{tables_of};
ghost use Rattle.semantic_model.specs.Analysis.{analysis_of};
ghost use Rattle.rename_model.specs.Alone.{BelongsTo, IsUnused};
ghost use Rattle.rename_model.specs.Fixed.{FixesFirst, NoneFixes};
ghost use Rattle.rename_model.specs.Refusal.{bad_name, fixed, differs, is_bad_name, rename};
ghost use Rattle.rename_model.specs.Renamed.{program_renamed};
ghost use Rattle.rename_model.specs.WithName.{with_name_in, AreIdentifiers};
ghost use Rattle.rename_model.specs.Same.{Same, DiffersFirstAt, first_difference};

/// The node that is found is the least at which two programs differ, and none is found exactly where they mean the same.
pub fn differences_are_exact()
    ensures none { (p q : Tree)
        → first_difference (analysis_of p) (analysis_of q) 0 (node_count p.root) ≡ None → Same p q }
    ensures some { (p q : Tree) (node : ℕ)
        → first_difference (analysis_of p) (analysis_of q) 0 (node_count p.root) ≡ Some node
        → DiffersFirstAt p q node }
    ensures complete { (p q : Tree) → Same p q
        → first_difference (analysis_of p) (analysis_of q) 0 (node_count p.root) ≡ None }
{}

/// A program is renamed exactly where no refusal holds. It has the new name in the nodes of the symbol, and means the same.
pub fn what_is_renamed_means_the_same()
    ensures { (p : Tree) (s : ℕ) (new : Name) (q : Tree) → (rename p s new ≡ Ok q)
        ↔ ((is_bad_name new ≡ false) × NoneFixes p s × Same p q
        × (q ≡ program_renamed p (analysis_of p) s new)) }
{}

/// Each refusal comes exactly where it holds and none before it does: a bad name, the least node that fixes the old name,
/// the least node that differs.
pub fn refusals_are_exact()
    ensures bad { (p : Tree) (s : ℕ) (new : Name) → (rename p s new ≡ Err bad_name)
        ↔ (is_bad_name new ≡ true) }
    ensures fixed { (p : Tree) (s node : ℕ) (new : Name) → IsNumbered p.root
        → (rename p s new ≡ Err (fixed node)) ↔ ((is_bad_name new ≡ false) × FixesFirst p s node) }
    ensures differs { (p : Tree) (s node : ℕ) (new : Name) → (rename p s new ≡ Err (differs node))
        ↔ ((is_bad_name new ≡ false) × NoneFixes p s
        × DiffersFirstAt p (program_renamed p (analysis_of p) s new) node) }
{}

/// A program without a fault has none where identifiers get a name that isn't empty, and properties lose the mark
/// `shorthand`. Its numbers stay.
pub fn another_name_makes_no_fault()
    ensures shaped { (chosen : ℕ → Bool) (name : Name) (p : Tree)
        → AreIdentifiers chosen p.root.children → bytes_eq name [] ≡ false → first_fault p ≡ None
        → first_fault (with_name_in chosen name p) ≡ None }
    ensures numbered { (chosen : ℕ → Bool) (name : Name) (p : Tree) → IsNumbered p.root
        → IsNumbered (with_name_in chosen name p).root }
{}

/// Where the name is not refused, and no node fixes the old one, the renamed program has no fault and is numbered.
pub fn renamed_programs_have_no_fault()
    ensures shaped { (p : Tree) (s : ℕ) (y : Symbol) (new : Name) → first_fault p ≡ None
        → IsNumbered p.root → slice_get (tables_of p).symbols s ≡ Some y
        → is_bad_name new ≡ false → NoneFixes p s
        → first_fault (program_renamed p (analysis_of p) s new) ≡ None }
    ensures numbered { (p : Tree) (s : ℕ) (y : Symbol) (new : Name) → first_fault p ≡ None
        → IsNumbered p.root → slice_get (tables_of p).symbols s ≡ Some y
        → is_bad_name new ≡ false → NoneFixes p s
        → IsNumbered (program_renamed p (analysis_of p) s new).root }
{}

/// Where every node with the name of a symbol belongs to it, that name is neither `arguments` nor `eval`, and no node has
/// the new name, the renamed program never differs.
pub fn a_name_of_one_symbol_never_differs()
    ensures { (p : Tree) (s : ℕ) (y : Symbol) (new : Name) → first_fault p ≡ None
        → IsNumbered p.root → slice_get (tables_of p).symbols s ≡ Some y
        → bytes_eq y.name (codes "arguments") ≡ false → bytes_eq y.name (codes "eval") ≡ false
        → BelongsTo p s y.name → IsUnused p new
        → (node : ℕ) → rename p s new ≡ Err (differs node) → ⊥ }
{}
