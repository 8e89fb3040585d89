//! Laws over the names that nodes bind.
ghost use Rattle.std.specs.Prelude.{◌≡◌, None};
ghost use Rattle.semantic_kinds.specs.declared.kind.AstType.{AstType};
ghost use Rattle.semantic_tree.specs.Faults.{first_fault};
ghost use Rattle.semantic_tree.specs.Tree.{Tree};
ghost use Rattle.semantic_model.specs.Entries.{Among};
ghost use Rattle.program_laws.specs.NamesAlike.{operand_kinds, NamesAlike, NamesInRole, NoOtherNames, NamesDiffer};

/// What `AstKind::bound_names` finds, by role, is what an analysis takes for bound names, by kind and role: at each node
/// of a program, unless it has expressions as operands, elements or properties. Where its kind binds under one role, as
/// a declaration under its id, they are the names in that role. Kinds that are no names, patterns, parameters,
/// declarators or declarations with an id have none: what an import specifier, a type parameter or an enum member
/// declares stands in a role, or under a kind, that is not looked at.
pub fn names_by_role_are_bound()
    ensures alike { (p : Tree) → first_fault p ≡ None → NamesAlike p }
    ensures in_role { (p : Tree) → first_fault p ≡ None → NamesInRole p }
    ensures others { (p : Tree) → first_fault p ≡ None → NoOtherNames p }
{}

/// None of these expressions is left out for nothing: of each of their kinds there is a node, in a program without a
/// fault, at which another name is found by role, as that of the function in `throw function f() {};`.
pub fn names_of_operands_are_not_bound()
    ensures { (k : AstType) → Among k operand_kinds → NamesDiffer k }
{}
