//! The analysis of a program: a walk over it from its root.

ghost use Rattle.std.specs.Prelude.{◌≡◌, ◌≤◌, ◌||◌, IfOk, OnOk, OnErr};
ghost use Rattle.semantic_syntax.specs.Counts.{raised};
ghost use Rattle.walk_model.specs.Probes.{probes};
ghost use Rattle.promise.specs.Analysis.{IsAnalysis, BelongsToNodes};
ghost use Rattle.promise.specs.Kept.{kept_nodes, classes_noted};
ghost use Rattle.semantic_walk.specs.Begun.{IsBegun};
ghost use Rattle.semantic_walk.specs.Listed.{list_kept};
ghost use Rattle.semantic_model.specs.Label.{unused_labels};

use crate::doings::Doings;
use crate::settings::Settings;
use crate::walk::Walk;
use check_context::Rules;
use class_table::ClassTable;
use node_store::AstNodes;
use scoping::{NodeTables, Scoping};
use semantic_diagnostics::Diagnostics;
use semantic_syntax::{NodeId, Steps};
use semantic_tree::{Program, Role};
use std::alloc::{AllocError, Global};

/// What an analysis makes: the tables, what belongs to each node, the nodes, if they are kept, the classes, if they are
/// noted, the labelled statements that no jump names, and what is wrong in the program, with early errors if they are
/// told.
#[derive(Drop)]
pub struct Analysis<'a> {
    pub scoping: Scoping,
    pub tables: NodeTables,
    pub nodes: AstNodes<'a>,
    pub classes: ClassTable<'a>,
    pub unused_labels: Vec<NodeId>,
    pub diagnostics: Diagnostics,
}

/// Walks over a program from its root, in tables with room by the settings, and settles what waits before it leaves the
/// root. What the walk, which begins at the root, has made and told then is the analysis of the program.
fn run<'a, L, R: Rules>(
    walk: &mut Walk<'a>,
    program: &'a Program,
    settings: Settings,
    rules: &R,
    steps: &mut Steps<L>,
) -> Result<(), AllocError>
    requires { IsBegun settings walk.old program.now }
    ensures analysis { OnOk result (IsAnalysis settings.checks program.now walk.new.made.tables
        walk.new.said) }
    ensures nodes { OnOk result (BelongsToNodes program.now walk.new.made.nodes) }
    ensures node_list { OnOk result (list_kept walk.new.nodes
        ≡ kept_nodes settings.build_nodes program.now) }
    ensures classes { OnOk result (walk.new.notes.classes.classes
        ≡ classes_noted (settings.class_table || settings.checks) program.now) }
    ensures labels { OnOk result (walk.new.notes.labels.unused ≡ unused_labels program.now.root) }
    ensures cost { OnOk result (steps.new ≡ raised steps.old (probes program.now)) }
    ensures risen { steps.old ≤ steps.new }
    ensures given_up { OnErr result (steps.new ≤ raised steps.old (probes program.now)) }
{
    walk.reserve(settings.room)?;
    let root = program.root();
    let doings = Doings::of(root.ty());
    walk.enter(root, doings)?;
    walk.walk_below(root, Role::Root, doings, rules, steps)?;
    walk.end(steps)?;
    walk.leave(root, doings, rules)?;
    walk.tell_rest()
}

/// Analyses a program, keeps its nodes, notes its classes and tells early errors, which are those of the rules, by the
/// settings. The only error is want of memory.
///
/// `steps` counts the probes, one for each scope that a look-up asks: of each reference those from its own outward,
/// once, up to the one that ties it or ends its look-up. After want of memory no more probes than these were made.
pub fn analyse<'a, L, R: Rules>(
    alloc: Global,
    program: &'a Program,
    settings: Settings,
    rules: &R,
    steps: &mut Steps<L>,
) -> Result<Analysis<'a>, AllocError>
    ensures analysis { IfOk result (λ made.
        IsAnalysis settings.checks program.now made.scoping made.diagnostics) }
    ensures nodes { IfOk result (λ made. BelongsToNodes program.now made.tables) }
    ensures node_list { IfOk result (λ made. made.nodes
        ≡ kept_nodes settings.build_nodes program.now) }
    ensures classes { IfOk result (λ made. made.classes
        ≡ classes_noted (settings.class_table || settings.checks) program.now) }
    ensures labels { IfOk result (λ made. made.unused_labels.items
        ≡ unused_labels program.now.root) }
    ensures cost { OnOk result (steps.new ≡ raised steps.old (probes program.now)) }
    ensures risen { steps.old ≤ steps.new }
    ensures given_up { OnErr result (steps.new ≤ raised steps.old (probes program.now)) }
{
    let mut walk = Walk::new(alloc, program, settings)?;
    match run(&mut walk, program, settings, rules, steps) {
        Ok(()) => Ok(walk.finish()),
        Err(error) => {
            walk.give_up();
            Err(error)
        }
    }
}
