//! Laws over what ECMAScript binds and what the tables say.
ghost use Rattle.std.specs.Prelude.{◌≡◌, true, false, None, [], ◌∷◌, bytes_eq, codes};
ghost use Rattle.semantic_syntax.specs.Tables.{Name};
ghost use Rattle.semantic_tree.specs.Faults.{first_fault};
ghost use Rattle.semantic_tree.specs.Tree.{Tree, IsNumbered};
ghost use Rattle.semantic_model.specs.Event.{declarations, events};
ghost use Rattle.semantic_model.specs.Step.{steps};
ghost use Rattle.tangle_model.specs.Tangled.{tangle_reasons};
ghost use Rattle.tangle_model.specs.declared.reason.Reason.TheVariants as reason;
ghost use Rattle.language_ties.specs.AgreeingNames.{AgreesOutsideWith, AgreesPastObjects, AllStandInExpressions, IsPlainName, IsReadOutsideWith};
ghost use Rattle.language_ties.specs.Agreement.{differing};
ghost use Rattle.language_ties.specs.ClearNames.{IsBoundOnce, StaysInside};
ghost use Rattle.language_ties.specs.EarlyErrors.{has_clash};
ghost use Rattle.language_ties.specs.ToldNames.{DeclarationsAreBound, LeavingAreTold, NamesAreBound};
ghost use Rattle.language_ties.specs.EcmaScript.{is_ecmascript};
ghost use Rattle.language_ties.specs.Environments.{Environment};
ghost use Rattle.language_ties.specs.Meaning.{identifiers_in};
ghost use Rattle.language_ties.specs.Misplaced.{has_misplaced};
ghost use Rattle.language_ties.specs.Moved.{bound_of};
ghost use Rattle.language_ties.specs.NearestScopes.{AreTiedNearest};
ghost use Rattle.language_ties.specs.OneSymbol.{EnvironmentsHaveOneSymbol, VariablesHaveOneSymbol};
ghost use Rattle.language_ties.specs.Scopes.{ScopesAreEnvironments};
ghost use Rattle.language_ties.specs.SharedSymbols.{AllKeepClear, ShareSymbols};
ghost use Rattle.language_ties.specs.StrictCode.{StrictnessAgrees};
ghost use Rattle.language_ties.specs.UnboundNames.{binds_name, IsFreeEverywhere};

/// The scopes round a node of an ECMAScript program are its environments: made by the same nodes in the same order, and `var`
/// declares in the same. So is the scope of the body of a `with`, which has the object for its environment. Environments without a
/// scope of their own are those of the names of functions, of bodies with an environment apart from the parameters', and of
/// functions that are bodies of `if`.
pub fn scopes_are_environments()
    ensures { (p : Tree) → first_fault p ≡ None → is_ecmascript p ≡ true → ScopesAreEnvironments p }
{}

/// Code is strict by the scope where a node stands exactly where it is by the nodes above it: in modules and classes, and under the
/// directive.
pub fn strictness_agrees()
    ensures { (p : Tree) → first_fault p ≡ None → is_ecmascript p ≡ true → StrictnessAgrees p }
{}

/// What the tables are told to declare at a node of an ECMAScript program is what the language binds there: the same identifiers
/// and names in the same order, each in the scope of the node that makes its environment. Of functions that leave their blocks,
/// since they have a variable beside, it is that variable, be they the body of an `if`. Left out are bodies of `if` without such a
/// variable, which other checks refuse.
pub fn declarations_are_bound()
    ensures staying { (p : Tree) → first_fault p ≡ None → is_ecmascript p ≡ true
        → DeclarationsAreBound p }
    ensures leaving { (p : Tree) → first_fault p ≡ None → is_ecmascript p ≡ true
        → IsNumbered p.root → LeavingAreTold p }
{}

/// Everywhere in such a program, of functions in blocks too, the names that the tables are told to declare are those that the
/// language binds, each by its identifier.
pub fn names_are_bound()
    ensures { (p : Tree) → first_fault p ≡ None → is_ecmascript p ≡ true → NamesAreBound p }
{}

/// Tables and language agree on a name that no node of an ECMAScript program binds: no environment binds it by an identifier, and
/// no reference of it is tied.
pub fn unbound_names_are_free()
    ensures nowhere { (p : Tree) (name : Name) (e : Environment) → binds_name p name ≡ false
        → identifiers_in (bound_of p) e name ≡ [] }
    ensures free { (p : Tree) (name : Name) → first_fault p ≡ None → is_ecmascript p ≡ true
        → binds_name p name ≡ false → IsFreeEverywhere p name }
{}

/// Where the declarations of a name keep clear of each other, those with one home have one symbol, which that scope binds in the
/// end, and no other scope binds the name. To keep clear: a `var` passes no scope that binds another of them, a function that
/// moves out of its block meets none, and a plain catch name has its clause to itself. So do names that are declared once. The
/// name of a function expression may have a symbol of its own, which the others in its scope hide.
pub fn clear_names_share_symbols()
    ensures { (p : Tree) (name : Name) → first_fault p ≡ None → is_ecmascript p ≡ true
        → AllKeepClear name (declarations (events (steps p))) → ShareSymbols p name }
{}

/// The identifiers by which the environments of one node bind such a name have one symbol. Functions that may leave their blocks
/// and own names of expressions are left out. Of a name that isn't tangled, those functions count where their variables are.
pub fn environments_have_one_symbol()
    ensures untangled { (p : Tree) (name : Name) → first_fault p ≡ None → is_ecmascript p ≡ true
        → IsNumbered p.root → tangle_reasons p name ≡ []
        → has_misplaced p name ≡ false → has_clash p name ≡ false → VariablesHaveOneSymbol p name }
    ensures clear { (p : Tree) (name : Name) → first_fault p ≡ None → is_ecmascript p ≡ true
        → IsNumbered p.root → AllKeepClear name (declarations (events (steps p)))
        → EnvironmentsHaveOneSymbol p name }
{}

/// Each reference of an ECMAScript program uses its name as a value, and each symbol is a value, so that none is passed by: a
/// reference is tied to the symbol of the nearest scope outward that binds its name, where that isn't `arguments`.
pub fn references_are_tied_nearest()
    ensures { (p : Tree) → first_fault p ≡ None → is_ecmascript p ≡ true → AreTiedNearest p }
{}

/// Declarations of a name keep clear of each other where it is bound as no variable, no function and no plain catch name, where
/// one identifier alone binds it, and where it is bound in plain ways or by functions that leave their blocks alone, and no
/// `var` clashes. So do those of a name that isn't tangled, under the premises of `untangled_names_agree`.
pub fn names_keep_clear()
    ensures lexical { (p : Tree) (name : Name) → first_fault p ≡ None → is_ecmascript p ≡ true
        → StaysInside p name → AllKeepClear name (declarations (events (steps p))) }
    ensures once { (p : Tree) (name : Name) → first_fault p ≡ None → is_ecmascript p ≡ true
        → IsNumbered p.root → IsBoundOnce p name
        → AllKeepClear name (declarations (events (steps p))) }
    ensures unclashed { (p : Tree) (name : Name) → first_fault p ≡ None → is_ecmascript p ≡ true
        → IsNumbered p.root → IsPlainName p name
        → has_clash p name ≡ false → AllKeepClear name (declarations (events (steps p))) }
    ensures untangled { (p : Tree) (name : Name) → first_fault p ≡ None → is_ecmascript p ≡ true
        → IsNumbered p.root → tangle_reasons p name ≡ []
        → has_misplaced p name ≡ false → has_clash p name ≡ false
        → AllKeepClear name (declarations (events (steps p))) }
{}

/// Tables and language agree on a name of which no `var` clashes, and which the program binds by `var`, `let`, `const`, imports,
/// classes, functions, parameters, own names of expressions and catch clauses alone, by no plain catch name whose clause a `var` of
/// the name passes, and by functions in blocks of sloppy code that have a variable beside, bodies of `if` among them, only where
/// nothing else of the name is bound on the way of that variable: each reference is tied to the one symbol of all by which the
/// innermost environment binds the name that binds it at all, and free where none does, in headers of functions and clauses, too. In
/// a `with` its object may have the name; they agree there on what the name means if it hasn't.
pub fn plain_names_agree()
    ensures outside { (p : Tree) (name : Name) → first_fault p ≡ None → is_ecmascript p ≡ true
        → IsNumbered p.root → bytes_eq name (codes "arguments") ≡ false
        → IsPlainName p name → has_clash p name ≡ false → AgreesOutsideWith p name }
    ensures none { (p : Tree) (name : Name) → first_fault p ≡ None → is_ecmascript p ≡ true
        → IsNumbered p.root → bytes_eq name (codes "arguments") ≡ false
        → IsPlainName p name → has_clash p name ≡ false → IsReadOutsideWith p name
        → differing p name ≡ [] }
    ensures past_objects { (p : Tree) (name : Name) → first_fault p ≡ None → is_ecmascript p ≡ true
        → IsNumbered p.root → bytes_eq name (codes "arguments") ≡ false
        → IsPlainName p name → has_clash p name ≡ false → AgreesPastObjects p name }
{}

/// A reference that stands among the parameters of a function stands in an expression: the parameters have an initializer, a default
/// or a computed key.
pub fn references_stand_in_expressions()
    ensures { (p : Tree) (name : Name) → first_fault p ≡ None → is_ecmascript p ≡ true
        → AllStandInExpressions p name }
{}

/// Of a name that isn't tangled, tables and language agree on each reference. That it isn't tangled says that no reference of it
/// stands in a `with`, that no `var` of it passes a clause whose plain parameter it is, that nothing else of it is bound on the way of
/// a function that leaves its block, be it the body of an `if`, and that it isn't `arguments`. Blocks and functions in a `with` may
/// declare it. Where it is tangled by a `with` alone, they agree on what it means if the object hasn't it. Left to the program are
/// early errors: a `var` that clashes, and functions where no grammar has them.
pub fn untangled_names_agree()
    ensures untangled { (p : Tree) (name : Name) → first_fault p ≡ None → is_ecmascript p ≡ true
        → IsNumbered p.root → tangle_reasons p name ≡ []
        → has_misplaced p name ≡ false → has_clash p name ≡ false
        → differing p name ≡ [] }
    ensures by_with { (p : Tree) (name : Name) → first_fault p ≡ None → is_ecmascript p ≡ true
        → IsNumbered p.root → tangle_reasons p name ≡ reason.With ∷ []
        → has_misplaced p name ≡ false → has_clash p name ≡ false
        → AgreesPastObjects p name }
{}
