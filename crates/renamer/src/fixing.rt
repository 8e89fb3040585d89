//! The first node whose name others see.

ghost use Rattle.std.specs.Prelude.{◌≡◌, ◌+◌, ◌<◌, ◌^◌, ◌-◌, ℕ, nat_eq, IfOk};
ghost use Rattle.std.specs.HashSet.{contains as has_key};
ghost use Rattle.semantic_tree.specs.Children.{node_count};
ghost use Rattle.semantic_tree.specs.Faults.{first_where};
ghost use Rattle.semantic_tree.specs.Place.{placed_from};
ghost use Rattle.semantic_syntax.specs.Members.{contains};
ghost use Rattle.semantic_model.specs.Step.{steps};
ghost use Rattle.semantic_model.specs.Exported.{exported_names};
ghost use Rattle.renamer.specs.Told.{told_by};
ghost use Rattle.rename_model.specs.Refusal.{first_fixed};
ghost use Rattle.rename_model.specs.Renamed.{bears_name};
ghost use Rattle.renamer.specs.Fixing.{names_property_at, fixes_at};

use crate::analysed::Analysed;
use crate::bearing::bears_name;
use semantic::node_symbols::exported_names;
use semantic_syntax::{NodeId, SymbolId};
use semantic_tree::{AstType, Node, Place, Program, Role};
use std::alloc::{AllocError, Global};
use std::collections::HashSet;

/// The ids as a set.
fn set_of(alloc: Global, ids: &[NodeId]) -> Result<HashSet<usize>, AllocError>
    ensures { IfOk result (λ set. (id : ℕ) → has_key nat_eq set id ≡ contains ids.now id) }
{
    let mut set = HashSet::new(alloc);
    for id in ids {
        set.insert(id.index())?;
    }
    Ok(set)
}

/// Whether the text of a node at the place is also the name of a property or of a member.
fn names_property(place: Place, kind: AstType) -> bool
    ensures { result ≡ names_property_at place kind }
{
    let is_target = match place.parent {
        Some(parent) => parent == AstType::AssignmentTargetPropertyIdentifier,
        None => false,
    };
    kind == AstType::TSEnumMember || (place.role == Role::Binding && is_target)
}

/// Whether a node at the place bears the name of the symbol, and others see that name.
fn fixes(
    analysed: &Analysed<'_>,
    symbol: SymbolId,
    exported: &HashSet<usize>,
    place: Place,
    node: &Node,
) -> bool
    ensures { result ≡ fixes_at (has_key nat_eq exported.now)
        (bears_name (told_by analysed.now) symbol) place node.now }
{
    bears_name(analysed, symbol, node.node_id)
        && (names_property(place, node.kind) || exported.contains(&node.node_id.index()))
}

/// The first such node, from one at a place down.
#[tactic(auto, using(semantic_tree::specs::Falls::below))]
fn first_fixing(
    analysed: &Analysed<'_>,
    symbol: SymbolId,
    exported: &HashSet<usize>,
    place: Place,
    node: &Node,
) -> Option<NodeId>
    requires { place.depth + node_count node.now < 2 ^ 32 - 1 }
    ensures { result ≡ first_where
        (fixes_at (has_key nat_eq exported.now) (bears_name (told_by analysed.now) symbol))
        (placed_from place node.now) }
{
    if fixes(analysed, symbol, exported, place, node) {
        return Some(node.node_id);
    }
    for (role, child) in node.children.as_slice() {
        let inside = place.of_child(node.kind, *role);
        match first_fixing(analysed, symbol, exported, inside, child) {
            Some(id) => return Some(id),
            None => {}
        }
    }
    None
}

/// The first node of a program that bears the name of the symbol, and whose name others see.
pub fn first_fixed(
    alloc: Global,
    program: &Program,
    analysed: &Analysed<'_>,
    symbol: SymbolId,
) -> Result<Option<NodeId>, AllocError>
    ensures { IfOk result (λ found. found
        ≡ first_fixed (exported_names (steps program.now))
        (bears_name (told_by analysed.now) symbol) (steps program.now)) }
{
    let names = exported_names(alloc, program)?;
    let exported = set_of(alloc, names.as_slice())?;
    let root = program.root().node();
    Ok(first_fixing(analysed, symbol, &exported, Place::root(), root))
}
