//! The builder, which analyses a program.

ghost use Rattle.std.specs.Prelude.{◌≡◌, ◌≤◌, true, false, None, Some, IfOk, OnOk, OnErr};
ghost use Rattle.semantic_syntax.specs.Counts.{raised};
ghost use Rattle.semantic_tree.specs.Children.{node_count};
ghost use Rattle.semantic_model.specs.TablesOf.{tables_of};
ghost use Rattle.walk_model.specs.Probes.{probes, depths};
ghost use Rattle.promise.specs.Analysed.{IsAnalysed};
ghost use Rattle.semantic.specs.Expected.{expected, room_within};
ghost use Rattle.semantic.specs.Chosen.{settings_of};

use checker::EarlyErrors;
use semantic_queries::{SemanticBuilderReturn, Stats, put_together};
use semantic_syntax::Steps;
use semantic_tree::Program;
use semantic_walk::{Room, Settings, analyse};
use std::alloc::{AllocError, Global};

/// The settings of an analysis. None of them changes the tables.
#[derive(Clone, Copy, PartialEq, Eq, Debug, Default)]
pub struct SemanticBuilder {
    /// Whether the nodes of the program are kept.
    pub(crate) build_nodes: bool,
    /// Whether the classes of the program are noted.
    pub(crate) class_table: bool,
    /// Whether early errors are told. The classes are noted then, too.
    pub(crate) check_syntax_error: bool,
    /// How large the tables will be, as it was told.
    pub(crate) stats: Option<Stats>,
    /// How many thousandths of what is counted are to be added to it, where nothing was told.
    pub(crate) excess_capacity: u32,
}

/// No look-up of a program asks more scopes than there are around its reference.
fn attest_depths(program: &Program)
    ensures { probes program.now ≤ depths (tables_of program.now) }
{
    program.root();
}

/// Room for what is expected, each number cut to the limit.
fn room_within(limit: u32, stats: Stats) -> Room
    ensures { result ≡ room_within limit stats }
{
    Room {
        nodes: stats.nodes.min(limit),
        scopes: stats.scopes.min(limit),
        symbols: stats.symbols.min(limit),
        references: stats.references.min(limit),
    }
}

impl SemanticBuilder {
    /// All settings off.
    pub fn new() -> SemanticBuilder
        ensures { result ≡ record {
          build_nodes = false;
          class_table = false;
          check_syntax_error = false;
          stats = None;
          excess_capacity = 0;
        } }
    {
        SemanticBuilder {
            build_nodes: false,
            class_table: false,
            check_syntax_error: false,
            stats: None,
            excess_capacity: 0,
        }
    }

    /// What a compiler needs: early errors are told.
    pub fn new_compiler() -> SemanticBuilder
        ensures { result ≡ record {
          build_nodes = false;
          class_table = false;
          check_syntax_error = true;
          stats = None;
          excess_capacity = 0;
        } }
    {
        SemanticBuilder::new().with_check_syntax_error(true)
    }

    /// What a linter needs: the nodes are kept, the classes noted, and early errors are told.
    pub fn new_linter() -> SemanticBuilder
        ensures { result ≡ record {
          build_nodes = true;
          class_table = true;
          check_syntax_error = true;
          stats = None;
          excess_capacity = 0;
        } }
    {
        SemanticBuilder::new()
            .with_build_nodes(true)
            .with_class_table(true)
            .with_check_syntax_error(true)
    }

    /// Tells the early errors of the program, or doesn't. The redeclarations are told either way. With it the classes
    /// are noted, too.
    pub fn with_check_syntax_error(self, yes: bool) -> SemanticBuilder
        ensures { result ≡ record self { check_syntax_error = yes } }
    {
        SemanticBuilder {
            check_syntax_error: yes,
            ..self
        }
    }

    /// Keeps the nodes of the program, or doesn't.
    pub fn with_build_nodes(self, yes: bool) -> SemanticBuilder
        ensures { result ≡ record self { build_nodes = yes } }
    {
        SemanticBuilder {
            build_nodes: yes,
            ..self
        }
    }

    /// Notes the classes of the program, or doesn't. Where early errors are told they are noted either way.
    pub fn with_class_table(self, yes: bool) -> SemanticBuilder
        ensures { result ≡ record self { class_table = yes } }
    {
        SemanticBuilder {
            class_table: yes,
            ..self
        }
    }

    /// Tells how large the tables will be. Room for so much is made beforehand, but for no more of each than the
    /// program has nodes; no answer changes. Without it the program is counted.
    pub fn with_stats(self, stats: Stats) -> SemanticBuilder
        ensures { result ≡ record self { stats = Some stats } }
    {
        SemanticBuilder {
            stats: Some(stats),
            ..self
        }
    }

    /// Makes room for so many thousandths more than the program counts, for those who add to the tables afterwards. It
    /// has no effect where `with_stats` tells how large the tables will be.
    pub fn with_excess_capacity(self, thousandths: u32) -> SemanticBuilder
        ensures { result ≡ record self { excess_capacity = thousandths } }
    {
        SemanticBuilder {
            excess_capacity: thousandths,
            ..self
        }
    }

    /// How large the tables are expected to be.
    fn expected(&self, program: &Program) -> Stats
        ensures { result ≡ expected self.now program.now }
    {
        match self.stats {
            Some(stats) => stats,
            None => Stats::count(program).increase_by(self.excess_capacity),
        }
    }

    /// What the walk over the program keeps and notes, and for how much it makes room.
    fn settings(&self, program: &Program) -> Settings
        ensures build_nodes { result.build_nodes ≡ self.now.build_nodes }
        ensures class_table { result.class_table ≡ self.now.class_table }
        ensures checks { result.checks ≡ self.now.check_syntax_error }
        ensures room { result.room
            ≡ room_within (node_count program.now.root) (expected self.now program.now) }
    {
        Settings {
            build_nodes: self.build_nodes,
            class_table: self.class_table,
            checks: self.check_syntax_error,
            room: room_within(program.node_count(), self.expected(program)),
        }
    }

    /// Analyses a program. The only error is want of memory. The diagnostics are the redeclarations of its declarations
    /// and, where they are told, its early errors (ECMAScript, TypeScript), in the order of a walk over the program: a
    /// redeclaration at its declaration, an early error on leaving the node that violates the rule. All that is promised of
    /// what it gives back is `IsAnalysed`.
    pub fn build<'a>(
        self,
        alloc: Global,
        program: &'a Program,
    ) -> Result<SemanticBuilderReturn<'a>, AllocError>
        ensures analysed { IfOk result (λ ret. IsAnalysed (settings_of self) program.now ret) }
    {
        let mut steps = Steps::new(());
        self.build_counted(alloc, program, &mut steps)
    }

    /// As `build`. The only error is want of memory.
    ///
    /// `steps` counts the probes, one for each scope that a look-up asks: of each reference those from its own outward,
    /// once, up to the one that ties it or ends its look-up. So there are no more probes than the scopes of the
    /// references lie deep, all together. After want of memory no more than these were made.
    pub fn build_counted<'a, L>(
        self,
        alloc: Global,
        program: &'a Program,
        steps: &mut Steps<L>,
    ) -> Result<SemanticBuilderReturn<'a>, AllocError>
        ensures analysed { IfOk result (λ ret. IsAnalysed (settings_of self) program.now ret) }
        ensures cost { OnOk result (steps.new ≡ raised steps.old (probes program.now)) }
        ensures risen { steps.old ≤ steps.new }
        ensures given_up { OnErr result (steps.new ≤ raised steps.old (probes program.now)) }
        ensures bounded { steps.new ≤ raised steps.old (depths (tables_of program.now)) }
    {
        attest_depths(program);
        let made = analyse(alloc, program, self.settings(program), &EarlyErrors, steps)?;
        let semantic = put_together(
            alloc,
            program,
            made.scoping,
            made.tables,
            made.nodes,
            made.classes,
            made.unused_labels,
        );
        Ok(SemanticBuilderReturn {
            semantic,
            diagnostics: made.diagnostics,
        })
    }
}
