//! The nodes whose names others see.
ghost use Rattle.std.specs.Prelude.{◌≡◌, ◌++◌, nat_eq, OnOk};
ghost use Rattle.std.specs.HashSet.{contains as has_key};
ghost use Rattle.mangler.specs.Spots.{seen_at, seen_from};

use crate::spot::Spot;
use semantic_syntax::NodeId;
use semantic_tree::Node;
use std::alloc::AllocError;
use std::collections::HashSet;

/// Adds the node, where others see its name.
fn push_node(
    nodes: &mut Vec<NodeId>,
    exported: &HashSet<usize>,
    spot: Spot,
    node: &Node,
) -> Result<(), AllocError>
    ensures { OnOk result (nodes.new.items
        ≡ nodes.old.items ++ seen_at (has_key nat_eq exported.now) spot node.now) }
{
    if spot.names_property(node.kind)
        || exported.contains(&node.node_id.index())
        || spot.names_element_or_property()
    {
        nodes.push(node.node_id)?;
    }
    Ok(())
}

/// Adds the node and all below it, where others see their names. For want of memory some may be added.
#[tactic(auto, using(semantic_tree::specs::Falls::below))]
pub fn push_seen(
    nodes: &mut Vec<NodeId>,
    exported: &HashSet<usize>,
    spot: Spot,
    node: &Node,
) -> Result<(), AllocError>
    ensures { OnOk result (nodes.new.items
        ≡ nodes.old.items ++ seen_from (has_key nat_eq exported.now) spot node.now) }
{
    push_node(nodes, exported, spot, node)?;
    for (role, child) in node.children.as_slice() {
        let inside = spot.of_child(node, *role);
        push_seen(nodes, exported, inside, child)?;
    }
    Ok(())
}
