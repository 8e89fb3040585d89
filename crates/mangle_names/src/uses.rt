//! Where the names of symbols stand in a program, and what other names cost there.
use scoping::{NodeTables, Scoping};
use semantic_queries::node_symbols::{symbol_at, tied_at};
use semantic_syntax::{NodeId, SymbolId};
use semantic_tree::{AstKind, AstType, Mark, Node, Program, Role};
use std::alloc::{AllocError, Global};

/// Where the name of one symbol stands.
#[derive(Drop)]
pub struct Uses {
    /// The scopes in which it stands, by number.
    pub scopes: Vec<usize>,
    /// The bytes that another name adds: keys that are written out, and ` as `.
    pub extra: usize,
}

/// The tables of a program.
#[derive(Clone, Copy)]
pub struct Tables<'a> {
    pub scoping: &'a Scoping,
    pub nodes: &'a NodeTables,
}

/// Where a node stands.
#[derive(Clone, Copy)]
struct Spot {
    /// It is the value of a property in short.
    is_short_value: bool,
    /// It is such a value, with a default.
    is_short_left: bool,
    /// It is the local name of an import or export that has no other one.
    is_only_name: bool,
    /// The number of the scope.
    scope: usize,
}

/// The symbol whose name the node bears, if any.
fn borne_at(tables: &Tables<'_>, node: NodeId) -> Option<SymbolId> {
    match symbol_at(tables.nodes, node) {
        Some(symbol) => Some(symbol),
        None => tied_at(tables.scoping, tables.nodes, node),
    }
}

/// Whether the two children have the same text.
fn have_same_text(node: AstKind<'_>, one: Role, other: Role) -> bool {
    match (node.child(one), node.child(other)) {
        (Some(one), Some(other)) => one.text().as_str() == other.text().as_str(),
        (_, _) => false,
    }
}

/// Whether the node is an import or export that has one name.
fn has_one_name(node: &Node) -> bool {
    match node.kind {
        AstType::ImportSpecifier => {
            have_same_text(AstKind::new(node), Role::Imported, Role::Local)
        }
        AstType::ExportSpecifier => {
            have_same_text(AstKind::new(node), Role::Exported, Role::Local)
        }
        _ => false,
    }
}

/// The spot of a child in a scope.
fn child_spot(spot: Spot, parent: &Node, role: Role, scope: usize) -> Spot {
    Spot {
        is_short_value: role == Role::Value && parent.marks.has(Mark::Shorthand),
        is_short_left: role == Role::Left
            && parent.kind == AstType::AssignmentPattern
            && spot.is_short_value,
        is_only_name: role == Role::Local && has_one_name(parent),
        scope,
    }
}

/// The bytes that another name for the node adds.
fn extra_at(spot: Spot, node: &Node) -> usize {
    let length = node.text.as_str().len();
    if spot.is_short_value || spot.is_short_left {
        length.saturating_add(1)
    } else if spot.is_only_name {
        length.saturating_add(4)
    } else {
        0
    }
}

/// The number of the scope in which the node's name is looked up.
fn scope_at(tables: &Tables<'_>, spot: Spot, node: NodeId) -> usize {
    match tables.nodes.reference_of(node) {
        Some(reference) => {
            if reference.index() < tables.scoping.references_len() {
                tables.scoping.get_reference(reference).scope_id().index()
            } else {
                spot.scope
            }
        }
        None => spot.scope,
    }
}

/// Notes the node at the symbol whose name it bears.
fn note(
    tables: &Tables<'_>,
    uses: &mut Vec<Uses>,
    spot: Spot,
    node: &Node,
) -> Result<(), AllocError> {
    let Some(symbol) = borne_at(tables, node.node_id) else {
        return Ok(());
    };
    let scope = scope_at(tables, spot, node.node_id);
    let extra = extra_at(spot, node);
    match uses.get_mut(symbol.index()) {
        Some(entry) => {
            entry.scopes.push(scope)?;
            entry.extra = entry.extra.saturating_add(extra);
            Ok(())
        }
        None => Ok(()),
    }
}

/// The number of the scope in which the children of the node stand, but for its own name.
fn scope_inside(tables: &Tables<'_>, spot: Spot, node: &Node) -> usize {
    match tables.nodes.scope_of(node.node_id) {
        Some(scope) => scope.index(),
        None => spot.scope,
    }
}

/// Whether a child is the name of a function or class that is declared: it stands outside of its scope.
fn stands_outside(node: &Node, role: Role) -> bool {
    role == Role::Id
        && (node.kind == AstType::Function || node.kind == AstType::Class)
        && node.text.as_str() == "declaration"
}

/// Notes the node and all below it.
#[tactic(auto, using(semantic_tree::specs::Falls::below))]
fn gather(
    tables: &Tables<'_>,
    uses: &mut Vec<Uses>,
    spot: Spot,
    node: &Node,
) -> Result<(), AllocError> {
    note(tables, uses, spot, node)?;
    let inside = scope_inside(tables, spot, node);
    for (role, child) in node.children.as_slice() {
        let scope = if stands_outside(node, *role) {
            spot.scope
        } else {
            inside
        };
        gather(tables, uses, child_spot(spot, node, *role, scope), child)?;
    }
    Ok(())
}

/// No uses for so many symbols.
fn no_uses(alloc: Global, count: usize) -> Result<Vec<Uses>, AllocError> {
    let mut uses = Vec::new(alloc);
    for _ in 0..count {
        uses.push(Uses {
            scopes: Vec::new(alloc),
            extra: 0,
        })?;
    }
    Ok(uses)
}

/// Where the name of each symbol stands.
pub fn uses_of(
    alloc: Global,
    program: &Program,
    tables: &Tables<'_>,
) -> Result<Vec<Uses>, AllocError> {
    let mut uses = no_uses(alloc, tables.scoping.symbols_len())?;
    let spot = Spot {
        is_short_value: false,
        is_short_left: false,
        is_only_name: false,
        scope: 0,
    };
    gather(tables, &mut uses, spot, program.root().node())?;
    Ok(uses)
}

/// How often the name of the symbol of the number stands.
pub fn count_at(uses: &[Uses], number: usize) -> usize {
    match uses.get(number) {
        Some(entry) => entry.scopes.len(),
        None => 0,
    }
}

/// The bytes that another name for it adds.
pub fn extra_of(uses: &[Uses], number: usize) -> usize {
    match uses.get(number) {
        Some(entry) => entry.extra,
        None => 0,
    }
}
