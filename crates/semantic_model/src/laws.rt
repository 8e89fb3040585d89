//! Laws over the definitions. Each holds of every program that its contract names.
ghost use Rattle.std.specs.Prelude.{◌≡◌, ◌<◌, ◌≤◌, ◌+◌, ℕ, List, ◌++◌, Option, None, cond, length, drop, get_or, map, flat_map};
ghost use Rattle.semantic_syntax.specs.Tables.{Name};
ghost use Rattle.semantic_kinds.specs.declared.role.Role.{Role};
ghost use Rattle.semantic_tree.specs.Children.{forest_of};
ghost use Rattle.semantic_tree.specs.Faults.{first_fault};
ghost use Rattle.semantic_tree.specs.Renamed.{swap, swapped_tree};
ghost use Rattle.semantic_tree.specs.Tree.{Tree};
ghost use Rattle.semantic_tree.specs.declared.node.Node.{Node};
ghost use Rattle.semantic_model.specs.Place.{Place, OpenScope};
ghost use Rattle.semantic_model.specs.Inside.{opens, scopes_in};
ghost use Rattle.semantic_model.specs.Step.{Step, steps, steps_below, steps_of, opening_at, ending_after, opening_last, scope_at, next_at, child_place, cursor_past};
ghost use Rattle.semantic_model.specs.Declaration.{Declaration};
ghost use Rattle.semantic_model.specs.Event.{events_of};
ghost use Rattle.semantic_model.specs.Fold.{State};
ghost use Rattle.semantic_model.specs.Hoist.{run};
ghost use Rattle.semantic_model.specs.Reference.{references};
ghost use Rattle.semantic_model.specs.TablesOf.{scopes, tables_of};
ghost use Rattle.semantic_model.specs.NodeTable.{node_tables};
ghost use Rattle.semantic_model.specs.Fits.{Fits};
ghost use Rattle.semantic_model.specs.NamespaceStates.{namespace_states};
ghost use Rattle.semantic_model.specs.Swap.{IsSwappable, swapped_tables, renamed_occurrence};
ghost use Rattle.semantic_model.specs.Moment.{UsesAreTies, StandsInOneList, BindingsAreSymbols, ListsBeginWithOwn};

/// Running the steps of one list and then those of another is running both.
pub fn steps_compose()
    ensures { (ds : List Declaration) (first rest : List Step) (st : State)
        → run st (flat_map (events_of ds) (first ++ rest))
        ≡ run (run st (flat_map (events_of ds) first)) (flat_map (events_of ds) rest) }
{}

/// The steps of the children from the i-th on: its scope may open, its own steps, a header or the scope may end,
/// and then the steps of the children behind it.
pub fn children_take_turns()
    ensures { (p : Place) (own : Option OpenScope) (n cursor : ℕ) (items : List (Role × Node))
        (i : ℕ) (child : Role × Node) → i < length items → child ≡ get_or items i child
        → steps_below p own n cursor (forest_of (drop i items))
        ≡ opening_at p child.0 own n
        ++ steps_of (child_place p (scope_at p child.0 own n) cursor child.0 child.1)
        (next_at p child.0 own n)
        ++ ending_after p child.0 (scope_at p child.0 own n) (forest_of (drop (i + 1) items))
        ++ steps_below p (scope_at p child.0 own n)
        (next_at p child.0 own n + cond (opens child.1.kind) 1 0 + scopes_in child.1.children)
        (cursor_past p child.0 cursor
        (child_place p (scope_at p child.0 own n) cursor child.0 child.1))
        (forest_of (drop (i + 1) items)) }
{}

/// After the last child a scope that is still to open opens and closes.
pub fn children_end()
    ensures { (p : Place) (own : Option OpenScope) (n cursor : ℕ) (items : List (Role × Node))
        (i : ℕ) → length items ≤ i
        → steps_below p own n cursor (forest_of (drop i items)) ≡ opening_last p own n }
{}

/// The tables of a program fit it, by five facts.
/// The scopes are the tree's. Each reference stands once in all lists, under its symbol or under its name. A
/// reference that no header holds, and that is not called `arguments`, has the first usable binding outward. A
/// declaration that meets no other has a symbol of its own, bound in its home alone. No binding and no symbol is
/// invented.
pub fn tables_fit()
    ensures { (p : Tree) → first_fault p ≡ None → Fits p (tables_of p) (node_tables (steps p)) }
{}

/// A reference is in the uses of a symbol exactly if that is its symbol, and there once.
pub fn uses_are_ties()
    ensures { (p : Tree) → first_fault p ≡ None → UsesAreTies (tables_of p) }
{}

/// Each reference stands in exactly one use list or exactly one free list, once.
pub fn references_stand_in_one_list()
    ensures { (p : Tree) → first_fault p ≡ None → StandsInOneList (tables_of p) }
{}

/// A name that a scope binds is its symbol's name, and the scope is that symbol's. No symbol is bound twice.
pub fn bindings_are_symbols()
    ensures { (p : Tree) → first_fault p ≡ None → BindingsAreSymbols (tables_of p) }
{}

/// A list of redeclarations is absent, or has two entries or more, of which the first is the symbol's own.
pub fn redeclarations_begin_with_own()
    ensures { (p : Tree) → ListsBeginWithOwn (tables_of p) }
{}

/// Names are only compared where scopes are opened: with two names swapped, neither of them `arguments` or `eval`, a
/// program has the same scopes.
pub fn swapped_names_leave_scopes()
    ensures { (a b : Name) (p : Tree) → IsSwappable a → IsSwappable b
        → scopes (steps (swapped_tree a b p)) ≡ scopes (steps p) }
{}

/// With two names swapped, a program has the same references in the same ways and scopes, with swapped names.
pub fn swapped_names_swap_references()
    ensures { (a b : Name) (p : Tree)
        → references (steps (swapped_tree a b p))
        ≡ map (renamed_occurrence (swap a b)) (references (steps p)) }
{}

/// With two names swapped, neither of them `arguments` or `eval`, a program has namespaces of the same states.
pub fn swapped_names_leave_namespace_states()
    ensures { (a b : Name) (p : Tree) → IsSwappable a → IsSwappable b
        → namespace_states (steps (swapped_tree a b p)) ≡ namespace_states (steps p) }
{}

/// With two names swapped, neither of them `arguments` or `eval`, the same scopes, symbols and references belong to the
/// nodes of a program.
pub fn swapped_names_leave_node_tables()
    ensures { (a b : Name) (p : Tree) → IsSwappable a → IsSwappable b
        → node_tables (steps (swapped_tree a b p)) ≡ node_tables (steps p) }
{}

/// Names are only compared: with two names swapped, neither of them `arguments` or `eval`, a program has the same
/// tables, with the names of symbols, bindings and free references swapped.
pub fn swapped_names_swap_tables()
    ensures { (a b : Name) (p : Tree) → IsSwappable a → IsSwappable b
        → tables_of (swapped_tree a b p) ≡ swapped_tables a b (tables_of p) }
{}
