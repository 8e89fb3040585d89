//! What a program tells of its names besides its tables.
ghost use Rattle.std.specs.Prelude.{◌≡◌, ◌||◌, ℕ, List, bytes_eq, length, nat_eq, IfOk, OnOk};
ghost use Rattle.std.specs.HashSet.{contains as has_key};
ghost use Rattle.std.specs.List.{list_any};
ghost use Rattle.semantic_syntax.specs.Members.{contains};
ghost use Rattle.semantic_model.specs.Analysis.{analysis_of};
ghost use Rattle.semantic_model.specs.Exported.{exported_names};
ghost use Rattle.semantic_model.specs.Step.{steps};
ghost use Rattle.semantic_model.specs.TablesOf.{is_symbol};
ghost use Rattle.rename_model.specs.Renamed.{bears_name};
ghost use Rattle.renamer.specs.Told.{told_by};
ghost use Rattle.mangle_model.specs.MayMangle.{fixes_symbol, is_predicate};
ghost use Rattle.mangler.specs.Changing.{IsSeen};
ghost use Rattle.mangler.specs.Withs.{EndsWith};

use crate::predicates::add_predicates;
use crate::seen_nodes::push_seen;
use crate::spot::Spot;
use name_sets::NameSet;
use renamer::Analysed;
use scoping::Scoping;
use semantic_queries::node_symbols::exported_names;
use semantic_syntax::{NodeId, ScopeFlags, ScopeId, SymbolId};
use semantic_tree::Program;
use std::alloc::{AllocError, Global};
use std::collections::HashSet;

/// What a program tells of its names besides its tables.
#[derive(Drop)]
pub struct Seen {
    /// The symbols whose names others see at some node.
    pub fixed: HashSet<usize>,
    /// The names that type predicates have.
    pub predicates: NameSet,
    /// The bodies of `with` statements open before this scope.
    pub with_end: usize,
}

/// The ids as a set.
fn set_of(alloc: Global, ids: &[NodeId]) -> Result<HashSet<usize>, AllocError>
    ensures { IfOk result (λ set. (id : ℕ) → has_key nat_eq set id ≡ contains ids.now id) }
{
    let mut set = HashSet::new(alloc);
    for id in ids {
        set.insert(id.index())?;
    }
    Ok(set)
}

/// Adds the symbol, if there is one.
fn add_symbol(set: &mut HashSet<usize>, symbol: Option<SymbolId>) -> Result<(), AllocError>
    ensures { OnOk result ((s : ℕ)
        → has_key nat_eq set.new s ≡ (has_key nat_eq set.old s || is_symbol s symbol)) }
{
    match symbol {
        Some(symbol) => {
            set.insert(symbol.index())?;
            Ok(())
        }
        None => Ok(()),
    }
}

/// Adds the symbols whose names the node bears.
fn add_symbols(
    set: &mut HashSet<usize>,
    analysed: &Analysed<'_>,
    node: NodeId,
) -> Result<(), AllocError>
    ensures { OnOk result ((s : ℕ)
        → has_key nat_eq set.new s
        ≡ (has_key nat_eq set.old s || bears_name (told_by analysed.now) s node)) }
{
    add_symbol(set, analysed.symbol_at(node))?;
    add_symbol(set, analysed.tied_at(node))
}

/// The symbols whose names the nodes bear.
fn symbols_of(
    alloc: Global,
    analysed: &Analysed<'_>,
    nodes: &[NodeId],
) -> Result<HashSet<usize>, AllocError>
    ensures { IfOk result (λ set. (s : ℕ)
        → has_key nat_eq set s ≡ list_any (bears_name (told_by analysed.now) s) nodes.now) }
{
    let mut set = HashSet::new(alloc);
    for node in nodes {
        add_symbols(&mut set, analysed, *node)?;
    }
    Ok(set)
}

/// The symbols whose names others see at some node.
fn fixed_symbols(
    alloc: Global,
    program: &Program,
    analysed: &Analysed<'_>,
) -> Result<HashSet<usize>, AllocError>
    ensures { IfOk result (λ set. (s : ℕ)
        → has_key nat_eq set s ≡ list_any
        (fixes_symbol (exported_names (steps program.now)) (bears_name (told_by analysed.now) s))
        (steps program.now)) }
{
    let names = exported_names(alloc, program)?;
    let exported = set_of(alloc, names.as_slice())?;
    let root = program.root().node();
    let mut nodes = Vec::new(alloc);
    push_seen(&mut nodes, &exported, Spot::root(), root)?;
    symbols_of(alloc, analysed, nodes.as_slice())
}

/// The names that type predicates have.
fn predicate_names(alloc: Global, program: &Program) -> Result<NameSet, AllocError>
    ensures { IfOk result (λ names. (q : List ℕ)
        → list_any (bytes_eq q) names ≡ list_any (is_predicate q) (steps program.now)) }
{
    let mut names = NameSet::new(alloc);
    add_predicates(alloc, &mut names, false, program.root().node())?;
    Ok(names)
}

/// Before which scope the bodies of all `with` statements open.
fn end_of_withs(scoping: &Scoping) -> usize
    ensures { EndsWith scoping.now.scopes result }
{
    let mut end = 0;
    for number in 0..(scoping.scopes_len() as u32) {
        let flags = scoping.scope_flags(ScopeId::new(number));
        if flags.intersects(ScopeFlags::With) {
            end = number as usize + 1;
        }
    }
    end
}

/// What the program tells.
pub fn seen_in(
    alloc: Global,
    program: &Program,
    analysed: &Analysed<'_>,
) -> Result<Seen, AllocError>
    requires { told_by analysed.now ≡ analysis_of program.now }
    ensures { IfOk result (IsSeen program.now) }
{
    let fixed = fixed_symbols(alloc, program, analysed)?;
    let predicates = predicate_names(alloc, program)?;
    Ok(Seen {
        fixed,
        predicates,
        with_end: end_of_withs(analysed.scoping),
    })
}
