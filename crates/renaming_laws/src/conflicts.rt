//! Laws on declarations and their conflicts.
ghost use Rattle.std.specs.Prelude.{◌≡◌, ℕ, [], Some, None, Ok, true, false, map, bytes_eq, codes, slice_get};
ghost use Rattle.semantic_syntax.specs.Tables.{Name, Symbol};
ghost use Rattle.semantic_tree.specs.Faults.{first_fault};
ghost use Rattle.semantic_tree.specs.Renamed.{swap};
ghost use Rattle.semantic_tree.specs.Tree.{Tree, IsNumbered};
ghost use Rattle.semantic_model.specs.NamespaceStates.{namespace_states};
ghost use Rattle.semantic_model.specs.Step.{steps};
ghost use Rattle.semantic_model.specs.TablesOf.{tables_of, made_of};
ghost use Rattle.program_laws.specs.SameAnalysis.{conflicts_of};
ghost use Rattle.rename_model.specs.Alone.{BelongsTo, IsUnused};
ghost use Rattle.rename_model.specs.Refusal.{rename};
ghost use Rattle.renaming_laws.specs.InBlocks.{ShareFlags, NoneMoves};
ghost use Rattle.swapped_checks.specs.SwappedPrograms.{holds_within};
ghost use Rattle.renaming_laws.specs.LookedUp.{exports_neither};
ghost use Rattle.renaming_laws.specs.KeptDeclarations.{KeepsDeclarations};
ghost use Rattle.renaming_laws.specs.KeptSoFar.{KeepsSoFar};
ghost use Rattle.renaming_laws.specs.KeptConflicts.{AreRenamedConflicts, with_other_name};

/// A renaming keeps the conflicts of declarations: so many, in the same order, at the same places. Those of the symbol are told
/// with its new name, all others as they were. Namespaces have to keep their states, which they do where there are none, or
/// where no specifier exports the old name or the new one, and no `var` may pass, on its way out of a block, a declaration of
/// its symbol that hasn't its flags: there a program can lose or get a conflict.
pub fn a_renaming_keeps_conflicts()
    ensures kept { (p q : Tree) (s : ℕ) (y : Symbol) (new : Name) → first_fault p ≡ None
        → IsNumbered p.root → slice_get (tables_of p).symbols s ≡ Some y
        → rename p s new ≡ Ok q → namespace_states (steps q) ≡ namespace_states (steps p)
        → ShareFlags (made_of p) → ShareFlags (made_of q)
        → AreRenamedConflicts p s new (conflicts_of p) (conflicts_of q) }
    ensures without_namespaces { (p q : Tree) (s : ℕ) (y : Symbol) (new : Name)
        → first_fault p ≡ None → IsNumbered p.root → slice_get (tables_of p).symbols s ≡ Some y
        → rename p s new ≡ Ok q → namespace_states (steps p) ≡ [] → ShareFlags (made_of p)
        → ShareFlags (made_of q)
        → AreRenamedConflicts p s new (conflicts_of p) (conflicts_of q) }
    ensures unexported { (p q : Tree) (s : ℕ) (y : Symbol) (new : Name) → first_fault p ≡ None
        → IsNumbered p.root → slice_get (tables_of p).symbols s ≡ Some y
        → rename p s new ≡ Ok q → holds_within (exports_neither y.name new) p.root ≡ true
        → ShareFlags (made_of p) → ShareFlags (made_of q)
        → AreRenamedConflicts p s new (conflicts_of p) (conflicts_of q) }
{}

/// Under the same conditions each symbol is declared as it was: at the same place, with the same flags and declarations. Its name
/// is the new one where it is the renamed symbol, else the old one. What binds it may be another scope, as a block is that of
/// a function which doesn't move where its name is taken.
pub fn a_renaming_keeps_declarations()
    ensures { (p q : Tree) (s : ℕ) (y : Symbol) (new : Name) → first_fault p ≡ None
        → IsNumbered p.root → slice_get (tables_of p).symbols s ≡ Some y
        → rename p s new ≡ Ok q → namespace_states (steps q) ≡ namespace_states (steps p)
        → ShareFlags (made_of p) → ShareFlags (made_of q)
        → KeepsDeclarations p q s new }
{}

/// Under the same conditions all this holds wherever the declarations stop: of what the first n events make there are the same symbols,
/// of the same identifiers, and the same conflicts. That is what the rules of early errors see at each node.
pub fn a_renaming_keeps_declarations_so_far()
    ensures { (p q : Tree) (s n : ℕ) (y : Symbol) (new : Name) → first_fault p ≡ None
        → IsNumbered p.root → slice_get (tables_of p).symbols s ≡ Some y
        → rename p s new ≡ Ok q → namespace_states (steps q) ≡ namespace_states (steps p)
        → ShareFlags (made_of p) → ShareFlags (made_of q)
        → KeepsSoFar p q s new n }
{}

/// Where no function of the program moves out of its block, as none does in TypeScript and in strict code, the declarations of the
/// renamed program go the same ways. So the condition on variables in blocks need be seen of the program alone.
pub fn variables_go_on_sharing_flags()
    ensures { (p q : Tree) (s : ℕ) (y : Symbol) (new : Name) → first_fault p ≡ None
        → IsNumbered p.root → slice_get (tables_of p).symbols s ≡ Some y
        → rename p s new ≡ Ok q → namespace_states (steps q) ≡ namespace_states (steps p)
        → NoneMoves p → ShareFlags (made_of p)
        → ShareFlags (made_of q) }
{}

/// Where every node with the name of a symbol belongs to it, that name is neither `arguments` nor `eval`, and no node has the
/// new name, all conflicts stay whatever else stands there, with the two names swapped.
pub fn a_name_of_one_symbol_keeps_conflicts()
    ensures { (p q : Tree) (s : ℕ) (y : Symbol) (new : Name) → first_fault p ≡ None
        → IsNumbered p.root → slice_get (tables_of p).symbols s ≡ Some y
        → bytes_eq y.name (codes "arguments") ≡ false → bytes_eq y.name (codes "eval") ≡ false
        → BelongsTo p s y.name → IsUnused p new
        → rename p s new ≡ Ok q
        → conflicts_of q ≡ map (with_other_name (swap y.name new)) (conflicts_of p) }
{}
