//! Laws over what is asked of nodes.
ghost use Rattle.std.specs.Prelude.{◌≡◌};
ghost use Rattle.semantic_syntax.specs.NodeEntries.{NodeEntries};
ghost use Rattle.semantic_syntax.specs.Tables.{Tables};
ghost use Rattle.semantic_tree.specs.Tree.{Tree};
ghost use Rattle.semantic_model.specs.Step.{steps};
ghost use Rattle.semantic_model.specs.NodeTable.{node_tables};
ghost use Rattle.semantic_model.specs.TablesOf.{tables_of};
ghost use Rattle.semantic_model.specs.Analysis.{analysis_of};
ghost use Rattle.semantic_queries.specs.Shown.{shown, entries};

/// The tables of a program, and what belongs to its nodes, show its analysis.
pub fn tables_show_the_analysis()
    ensures { (p : Tree) (t : Tables) (nodes : NodeEntries) → t ≡ tables_of p
        → nodes.symbols ≡ entries (node_tables (steps p)).symbols
        → nodes.references ≡ entries (node_tables (steps p)).references
        → nodes.scopes ≡ entries (node_tables (steps p)).scopes
        → shown t nodes ≡ analysis_of p }
{}
