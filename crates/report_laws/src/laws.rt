//! Laws over reports.
ghost use Rattle.std.specs.Prelude.{◌≡◌, ℕ, List, None};
ghost use Rattle.semantic_syntax.specs.Tables.{Tables};
ghost use Rattle.semantic_tree.specs.Tree.{Tree};
ghost use Rattle.table_bounds.specs.Tellable.{AreTellable};
ghost use Rattle.program_ends.specs.Meaning.{End};
ghost use Rattle.program_ends.specs.Reads.{Stands};
ghost use Rattle.report_lines.specs.TableLines.{table_lines};
ghost use Rattle.report_answers.specs.Found.{Found};
ghost use Rattle.report_answers.specs.Report.{options_of, report_text};
ghost use Rattle.report_answers.specs.declared.options.Options.{Options};
ghost use Rattle.report_answers.specs.declared.request.Request.{Request};
ghost use Rattle.report.specs.Built.{found_of};
ghost use Rattle.report.specs.Meaning.{Answers};
ghost use Rattle.report_laws.specs.Found.{IsFoundIn, TellTheSame};

/// Tables of which a report has the same lines are the same, if their numbers have no more than 64 bits, all their flags
/// have names and their lists fit, as those of a program's tables do.
pub fn lines_tell_tables()
    ensures { (t u : Tables) → AreTellable t → AreTellable u → table_lines t ≡ table_lines u
        → t ≡ u }
{}

/// The report loses nothing. Two programs of which it has one text have the same tables, unused labels and diagnostics,
/// whatever is asked for besides; and where both are asked for classes, for counts or for nodes, the same classes, as many
/// nodes, and nodes of the same kinds with the same parents in the same scopes.
pub fn reports_lose_nothing()
    ensures { (o q : Options) (p r : Tree) (a b : Found) → IsFoundIn p a → IsFoundIn r b
        → report_text o a ≡ report_text q b → TellTheSame o q a b }
{}

/// So the report program loses nothing. Two inputs of which it gives one report, as `run` of `report` answers, whatever its
/// words ask for besides, are programs of which the reports tell the same.
pub fn answers_lose_nothing()
    ensures { (input other : List ℕ) (p r : Tree) (asked also : Request) (x y : End) (text : List ℕ)
        → Stands input p → Stands other r → asked.make ≡ None → also.make ≡ None
        → (h : Answers asked x p text) (k : Answers also y r text)
        → TellTheSame (options_of asked) (options_of also) (found_of p h.tables h.diagnostics)
        (found_of r k.tables k.diagnostics) }
{}
