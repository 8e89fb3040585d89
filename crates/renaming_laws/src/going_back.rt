//! A law on renaming back.
ghost use Rattle.std.specs.Prelude.{◌≡◌, ℕ, Some, None, Ok, false, slice_get};
ghost use Rattle.semantic_syntax.specs.Tables.{Name, Symbol};
ghost use Rattle.semantic_tree.specs.Faults.{first_fault};
ghost use Rattle.semantic_tree.specs.Tree.{Tree, IsNumbered};
ghost use Rattle.semantic_model.specs.Analysis.{analysis_of};
ghost use Rattle.semantic_model.specs.TablesOf.{tables_of};
ghost use Rattle.rename_model.specs.Refusal.{is_bad_name, rename};
ghost use Rattle.rename_model.specs.Renamed.{program_renamed};
ghost use Rattle.renaming_laws.specs.WrittenOut.{written_out};

/// A renamed program in which the symbol has its old name again is the program itself, but that no property whose value
/// bears the name is in short: marks `shorthand` don't come back. All else is as it was, to the last mark. The old name is
/// never refused, but where no symbol gets it.
pub fn renaming_back_gives_the_program()
    ensures same { (p q : Tree) (s : ℕ) (y : Symbol) (new : Name) → first_fault p ≡ None
        → IsNumbered p.root → slice_get (tables_of p).symbols s ≡ Some y
        → rename p s new ≡ Ok q
        → program_renamed q (analysis_of q) s y.name ≡ written_out p s }
    ensures allowed { (p q : Tree) (s : ℕ) (y : Symbol) (new : Name) → first_fault p ≡ None
        → IsNumbered p.root → slice_get (tables_of p).symbols s ≡ Some y
        → rename p s new ≡ Ok q → is_bad_name y.name ≡ false
        → rename q s y.name ≡ Ok (written_out p s) }
{}
