//! Laws of what a walk tells.
ghost use Rattle.std.specs.Prelude.{◌≡◌, ◌∷◌, ◌++◌, ◌+◌, [], ℕ, List, Bool, true, false, cond, Option, None};
ghost use Rattle.std.specs.Prelude.{IfSome};
ghost use Rattle.std.specs.Str.{encode_utf8_all};
ghost use Rattle.semantic_kinds.specs.declared.kind.AstType.{AstType};
ghost use Rattle.semantic_kinds.specs.declared.kind.AstType.TheVariants.{Program as program_kind};
ghost use Rattle.semantic_kinds.specs.declared.role.Role.{Role};
ghost use Rattle.semantic_tree.specs.Nodes.{trees, nodes_in, first_of};
ghost use Rattle.semantic_tree.specs.Sound.{has_good_span};
ghost use Rattle.semantic_tree.specs.Faults.{first_fault};
ghost use Rattle.semantic_tree.specs.Forest.{Forest, nothing, tree};
ghost use Rattle.semantic_tree.specs.Tree.{Tree, IsNumbered};
ghost use Rattle.semantic_tree.specs.declared.node.Node.{Node};
ghost use Rattle.semantic_model.specs.Declaration.{Declaration};
ghost use Rattle.semantic_model.specs.Inside.{opens, scopes_in};
ghost use Rattle.semantic_model.specs.Place.{Place, OpenScope, innermost, scope_of_place};
ghost use Rattle.semantic_model.specs.Step.{Step, leaving, steps, root_place, steps_of, steps_below, scope_at, next_at, child_place, cursor_past, opening_at, ending_after, opening_last};
ghost use Rattle.semantic_syntax.specs.Tables.{Tables};
ghost use Rattle.walk_model.specs.Settles.{settle_rest};
ghost use Rattle.walk_model.specs.Shown.{ShowsChain, HasVar};
ghost use Rattle.walk_model.specs.WalkState.{WalkState, nothing_made};
ghost use Rattle.walk_model.specs.Walks.{after, after_all, walked};
ghost use Rattle.class_table.specs.Noted.{begun_builder, class_entered, class_left, noted_below};
ghost use Rattle.class_table.specs.NotedSteps.{entered_under, noting_all};
ghost use Rattle.class_table.specs.declared.builder.ClassTableBuilder.{ClassTableBuilder};
ghost use Rattle.check_model.specs.DiagnosticsOf.{diagnostics_of};
ghost use Rattle.check_model.specs.Rows.{rows_of};
ghost use Rattle.check_model.specs.Context.{Context, sight_shown, unresolved_by};
ghost use Rattle.check_model.specs.SightOf.{classes_around, elements_at, scopes_it_stands_in};
ghost use Rattle.check_walk.specs.Context.{IsContextAt};
ghost use Rattle.check_walk.specs.Leaving.{IsHandedAt};
ghost use Rattle.check_walk.specs.Ready.{IsReadyAt, IsReadyBetween};
ghost use Rattle.check_walk.specs.Shaped.{is_class_shape, are_class_shapes};
ghost use Rattle.check_walk.specs.Showing.{ShowsClasses, IsInClasses, ShowsAround, ShowsBetween};
ghost use Rattle.check_walk.specs.SoFar.{Telling, so_far, CountedAreTold, telling};
ghost use Rattle.check_walk.specs.Apart.{HasApart};
ghost use Rattle.check_context.specs.Sound.{HaveGoodSpans, IsInSource, AreAllSound};
ghost use Rattle.check_walk.specs.TellingAlong.{telling_past, telling_left, telling_along, making, telling_over, telling_whole};
ghost use Rattle.check_walk.specs.Telling.{IsQuiet, rows_in, steps_within, told_over, told_walking};
ghost use Rattle.check_walk.specs.WalkSight.{sight_in, unresolved_in};

/// The walk over a numbered program without a fault tells the diagnostics of the program, in the same order.
pub fn walk_tells()
    ensures { (checks : Bool) (p : Tree) → first_fault p ≡ None → IsNumbered p.root
        → told_walking checks p ≡ diagnostics_of checks p }
{}

/// What is told over lists of steps is told over one and then the other.
pub fn lists_compose()
    ensures { (checks : Bool) (source : List ℕ) (ds : List Declaration) (xs ys : List Step)
        (w : WalkState) →
        told_over checks source ds w (xs ++ ys)
        ≡ told_over checks source ds w xs ++ told_over checks source ds (after_all ds w xs) ys }
{}

/// A step that leaves no node tells what it notes, even if that is told later.
pub fn quiet_steps_tell()
    ensures { (checks : Bool) (source : List ℕ) (ds : List Declaration) (t : Telling) (step : Step)
        → CountedAreTold t → IsQuiet step →
        so_far (record t { made = after ds t.made step })
        ≡ so_far t ++ told_over checks source ds t.made (step ∷ []) }
{}

/// Leaving a node tells its rows.
pub fn leaving_tells()
    ensures { (source : List ℕ) (ds : List Declaration) (t : Telling) (p : Place) →
        so_far (telling t (rows_in true source t.made (leaving p)))
        ≡ so_far t ++ told_over true source ds t.made (leaving p ∷ []) }
{}

/// The rows of a context are those of the walk at its place.
pub fn context_shows_rows()
    ensures { (c : Context) (source : List ℕ) (w : WalkState) (p : Place) → IsContextAt c source w p
        → rows_of (sight_shown p.node c) ≡ rows_of (sight_in source w p) }
{}

/// In the end the entries of nodes tell the free references as the tables do.
pub fn entries_tell_free()
    ensures { (p : Tree) → first_fault p ≡ None → IsNumbered p.root
        → unresolved_by (walked p).nodes (walked p).tables ≡ unresolved_in (walked p).tables }
{}

/// On leaving each node along a walk over a program, the classes that are noted so far are those that checks look at;
/// when the root is left, the elements of all classes are.
pub fn a_walk_shows_what_checks_look_at()
    ensures classes { (p : Tree) → first_fault p ≡ None → (xs ys : List Step) (q : Place)
        → steps p ≡ xs ++ leaving q ∷ ys →
        ShowsClasses (noting_all begun_builder xs).classes
        (noting_all begun_builder xs).current_class_id q }
    ensures elements { (p : Tree) → first_fault p ≡ None
        → (noting_all begun_builder (steps_within p)).classes.elements ≡ elements_at p.root }
{}

/// The same for each turn of a recursion over a program. A walk comes to a place in the classes around it, and between
/// two of its children shows those around them; once none is left, it shows what checks look at on leaving the place.
pub fn a_recursion_shows_what_checks_look_at()
    ensures shapes { (p : Tree) → first_fault p ≡ None
        → (is_class_shape p.root.kind p.root.children ≡ true)
        × (are_class_shapes p.root.children ≡ true) }
    ensures begins { IsInClasses begun_builder [] }
    ensures comes { (b : ClassTableBuilder) (p : Place)
        → is_class_shape p.node.kind p.node.children ≡ true
        → are_class_shapes p.node.children ≡ true → IsInClasses b (classes_around p.path) →
        ShowsBetween (entered_under p.path p.node b) p p.node.children }
    ensures child { (b : ClassTableBuilder) (p : Place) (r : Role) (here : Node) (after : Forest)
        → ShowsAround b p (tree r here.kind here.span here.text here.marks here.children
        here.node_id after) →
        IsInClasses b (classes_around (p.node ∷ p.path))
        × (is_class_shape here.kind here.children ≡ true)
        × (are_class_shapes here.children ≡ true) }
    ensures behind { (b : ClassTableBuilder) (p : Place) (r : Role) (here : Node) (after : Forest)
        → ShowsAround b p (tree r here.kind here.span here.text here.marks here.children
        here.node_id after) →
        ShowsBetween (class_left here.kind
        (noted_below here.kind here.node_id here.children
        (class_entered p.node.kind p.node.node_id here b))) p after }
{}

/// A walker that does the steps of a list and tells on leaving each node has told in the end, with the conflicts that
/// are left, what is told over the list. What it makes doesn't depend on checks, and with checks off it says nothing.
pub fn a_walker_tells_along_steps()
    ensures tells { (checks : Bool) (source : List ℕ) (ds : List Declaration) (t : Telling)
        (ss : List Step) → CountedAreTold t →
        so_far (telling_along checks source ds t ss)
        ≡ so_far t ++ told_over checks source ds t.made ss }
    ensures makes { (checks : Bool) (source : List ℕ) (ds : List Declaration) (t : Telling)
        (ss : List Step) → (telling_along checks source ds t ss).made ≡ after_all ds t.made ss }
    ensures parts { (checks : Bool) (source : List ℕ) (ds : List Declaration) (t : Telling)
        (ss : List Step) →
        record (telling_along checks source ds t ss) { made = after_all ds t.made ss }
        ≡ telling_along checks source ds t ss }
    ensures leaves { (checks : Bool) (source : List ℕ) (ds : List Declaration) (t : Telling)
        (p : Place) → record (telling_left checks source t p) { made = t.made }
        ≡ telling_past checks source ds t (leaving p) }
    ensures counts { (checks : Bool) (source : List ℕ) (ds : List Declaration) (t : Telling)
        (ss : List Step) → CountedAreTold t → CountedAreTold (telling_along checks source ds t ss) }
    ensures unchecked { (source : List ℕ) (ds : List Declaration) (t : Telling) (ss : List Step)
        → telling_along false source ds t ss ≡ making ds t ss }
{}

/// The same for each turn of a recursion over a program: between two children of a place scopes open and close and
/// headers end without a word, and each child is entered, walked below and left.
pub fn a_recursion_tells_at_leaves()
    ensures turns { (checks : Bool) (source : List ℕ) (ds : List Declaration) (t : Telling)
        (p : Place) (own : Option OpenScope) (n cursor : ℕ) (r : Role) (here : Node)
        (after : Forest) →
        telling_along checks source ds t
        (steps_below p own n cursor
        (tree r here.kind here.span here.text here.marks here.children here.node_id after))
        ≡ telling_along checks source ds
        (making ds (telling_over checks source ds (making ds t (opening_at p r own n))
        (child_place p (scope_at p r own n) cursor r here) (next_at p r own n))
        (ending_after p r (scope_at p r own n) after))
        (steps_below p (scope_at p r own n)
        (next_at p r own n + cond (opens here.kind) 1 0 + scopes_in here.children)
        (cursor_past p r cursor (child_place p (scope_at p r own n) cursor r here)) after) }
    ensures ends { (checks : Bool) (source : List ℕ) (ds : List Declaration) (t : Telling)
        (p : Place) (own : Option OpenScope) (n cursor : ℕ) →
        telling_along checks source ds t (steps_below p own n cursor nothing)
        ≡ making ds t (opening_last p own n) }
    ensures node { (checks : Bool) (source : List ℕ) (ds : List Declaration) (t : Telling)
        (p : Place) (n : ℕ) → telling_along checks source ds t (steps_of p n)
        ≡ telling_over checks source ds t p n }
{}

/// From the root on, whose scope is open at the start: once what waits is settled and the root is left, the diagnostics
/// of the program are told, in order.
pub fn a_walker_tells_a_program()
    ensures { (checks : Bool) (p : Tree) → first_fault p ≡ None → IsNumbered p.root
        → so_far (telling_whole checks p (walked p)) ≡ diagnostics_of checks p }
{}

/// Each node of a program stands in the source, on characters, and shows the sign that it has, and so does a child in
/// any role. The elements of the classes that a walk notes stand there too: entering a node, walking below it and
/// leaving it keeps that.
pub fn nodes_and_elements_are_sound()
    ensures program { (p : Tree) → first_fault p ≡ None
        → IsInSource (encode_utf8_all p.source) p.root }
    ensures child { (source : List ℕ) (r : Role) (f : Forest) → HaveGoodSpans source f
        → IfSome (first_of (nodes_in r (trees f))) (λ child. has_good_span source child ≡ true) }
    ensures entering { (source : List ℕ) (above : List Node) (here : Node) (b : ClassTableBuilder)
        → HaveGoodSpans source here.children → AreAllSound source b.classes.elements
        → AreAllSound source (entered_under above here b).classes.elements }
    ensures below { (source : List ℕ) (k : AstType) (node : ℕ) (f : Forest) (b : ClassTableBuilder)
        → HaveGoodSpans source f → AreAllSound source b.classes.elements
        → AreAllSound source (noted_below k node f b).classes.elements }
    ensures leaving { (source : List ℕ) (k : AstType) (b : ClassTableBuilder)
        → AreAllSound source b.classes.elements
        → AreAllSound source (class_left k b).classes.elements }
{}

/// No node has two references, whatever the walk does.
pub fn references_stay_apart()
    ensures first { HasApart nothing_made }
    ensures step { (ds : List Declaration) (w : WalkState) (step : Step) → HasApart w
        → HasApart (after ds w step) }
    ensures steps { (ds : List Declaration) (w : WalkState) (ss : List Step) → HasApart w
        → HasApart (after_all ds w ss) }
    ensures settled { (w : WalkState) → HasApart w → HasApart (settle_rest w) }
{}

/// The tables show the scopes where a place stands: those of its chain and, where the root is left in the end, the
/// root's own.
pub fn scopes_are_shown_where_a_place_stands()
    ensures inside { (t : Tables) (p : Place) → HasVar p.chain → ShowsChain t p.chain
        → ShowsChain t (scopes_it_stands_in p)
        × ((innermost (scopes_it_stands_in p)).number ≡ scope_of_place p) }
    ensures root { (p : Tree) → first_fault p ≡ None
        → ShowsChain (walked p).tables (scopes_it_stands_in (root_place p)) }
{}

/// What checks ask beside the tables, for each turn of a recursion over a program: it holds at the root, comes down to
/// each child, and stays behind it. Once no child is left, it is what the check of the place asks.
pub fn a_recursion_meets_what_checks_ask()
    ensures begins { (p : Tree) → first_fault p ≡ None → IsNumbered p.root → (w : WalkState)
        → HasApart w → IsReadyAt (encode_utf8_all p.source) w begun_builder (root_place p) }
    ensures enters { (source : List ℕ) (w v : WalkState) (b : ClassTableBuilder) (p : Place)
        → IsReadyAt source w b p → HasApart v
        → IsReadyBetween source v (entered_under p.path p.node b) p p.node.children }
    ensures child { (source : List ℕ) (w v : WalkState) (b : ClassTableBuilder) (p : Place)
        (r : Role) (here : Node) (after : Forest) (child : Place) → child.node ≡ here
        → child.path ≡ p.node ∷ p.path →
        IsReadyBetween source w b p
        (tree r here.kind here.span here.text here.marks here.children here.node_id after)
        → HasApart v → IsReadyAt source v b child }
    ensures behind { (source : List ℕ) (w v : WalkState) (b : ClassTableBuilder) (p : Place)
        (r : Role) (here : Node) (after : Forest) →
        IsReadyBetween source w b p
        (tree r here.kind here.span here.text here.marks here.children here.node_id after)
        → HasApart v →
        IsReadyBetween source v (class_left here.kind
        (noted_below here.kind here.node_id here.children
        (class_entered p.node.kind p.node.node_id here b))) p after }
{}

/// What a walk hands to a check when it leaves a node shows the rows of the walk: below the root from the scopes that
/// the recursion knows, and at the root once all references are settled.
pub fn a_walk_hands_what_its_rows_look_at()
    ensures inside { (c : Context) (source : List ℕ) (w : WalkState) (p : Place)
        → IsHandedAt c source w p → HasVar p.chain → ShowsChain w.tables p.chain
        → (p.node.kind ≡ program_kind → ⊥) →
        rows_of (sight_shown p.node c) ≡ rows_of (sight_in source w p) }
    ensures root { (c : Context) (p : Tree) → first_fault p ≡ None → IsNumbered p.root
        → IsHandedAt c (encode_utf8_all p.source) (walked p) (root_place p)
        → c.classes.elements ≡ elements_at p.root →
        rows_of (sight_shown p.root c)
        ≡ rows_of (sight_in (encode_utf8_all p.source) (walked p) (root_place p)) }
{}
