//! Laws over analyses of one program with other settings.
ghost use Rattle.std.specs.Prelude.{◌≡◌, Bool, false, List, map};
ghost use Rattle.check_model.specs.DiagnosticsOf.{conflict_diagnostic};
ghost use Rattle.semantic_diagnostics.specs.declared.diagnostic.Diagnostic.{Diagnostic};
ghost use Rattle.semantic_syntax.specs.Tables.{Tables};
ghost use Rattle.semantic_tree.specs.Tree.{Tree};
ghost use Rattle.semantic_model.specs.Event.{events};
ghost use Rattle.semantic_model.specs.Fold.{start};
ghost use Rattle.semantic_model.specs.Hoist.{run};
ghost use Rattle.semantic_model.specs.Step.{steps};
ghost use Rattle.promise.specs.Analysis.{IsAnalysis};

/// The tables are the same whether early errors are told or not. The diagnostics depend on nothing else than that, and
/// without early errors they are the conflicts of declarations, each as a redeclaration, in order.
pub fn early_errors_change_no_table()
    ensures tables { (checks others : Bool) (p : Tree) (t u : Tables) (ds es : List Diagnostic)
        → IsAnalysis checks p t ds → IsAnalysis others p u es → t ≡ u }
    ensures diagnostics { (checks : Bool) (p : Tree) (t u : Tables) (ds es : List Diagnostic)
        → IsAnalysis checks p t ds → IsAnalysis checks p u es → ds ≡ es }
    ensures unchecked { (p : Tree) (t : Tables) (ds : List Diagnostic) → IsAnalysis false p t ds
        → ds ≡ map conflict_diagnostic (run start (events (steps p))).conflicts }
{}
