//! The names in type predicates, as in `x is string`.
ghost use Rattle.std.specs.Prelude.{◌≡◌, ◌||◌, ℕ, List, bytes_eq, OnOk};
ghost use Rattle.std.specs.List.{list_any};
ghost use Rattle.mangler.specs.Predicates.{predicate_at, predicates_from};

use name_sets::NameSet;
use semantic_tree::{AstType, Node};
use std::alloc::{AllocError, Global};

/// Adds the name of the node, where a type predicate has it.
fn add_name(
    alloc: Global,
    names: &mut NameSet,
    in_predicate: bool,
    node: &Node,
) -> Result<(), AllocError>
    ensures { OnOk result ((q : List ℕ)
        → list_any (bytes_eq q) names.new
        ≡ (list_any (bytes_eq q) names.old
        || list_any (bytes_eq q) (predicate_at in_predicate node.now))) }
{
    if in_predicate && node.kind == AstType::IdentifierName {
        names.add(alloc, node.text.as_str())?;
    }
    Ok(())
}

/// Adds the names that type predicates have, in the node and all below it. For want of memory some may be added.
#[tactic(auto, using(semantic_tree::specs::Falls::below))]
pub fn add_predicates(
    alloc: Global,
    names: &mut NameSet,
    in_predicate: bool,
    node: &Node,
) -> Result<(), AllocError>
    ensures { OnOk result ((q : List ℕ)
        → list_any (bytes_eq q) names.new
        ≡ (list_any (bytes_eq q) names.old
        || list_any (bytes_eq q) (predicates_from in_predicate node.now))) }
{
    add_name(alloc, names, in_predicate, node)?;
    let is_predicate = node.kind == AstType::TSTypePredicate;
    for (_, child) in node.children.as_slice() {
        add_predicates(alloc, names, is_predicate, child)?;
    }
    Ok(())
}
