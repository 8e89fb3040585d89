//! The first node of a tree that does not pass a check.

ghost use Rattle.std.specs.Prelude.{◌≡◌, ◌+◌, ◌<◌, ◌^◌, ◌-◌};
ghost use Rattle.semantic_tree.specs.Children.{node_count};
ghost use Rattle.semantic_tree.specs.Place.{placed_from};
ghost use Rattle.semantic_tree.specs.Faults.{first_where};
ghost use Rattle.semantic_tree.specs.Checks.{breaks};

use crate::node::Node;
use crate::place::Place;
use crate::shape::is_well_formed;
use crate::sound::has_good_span;
use semantic_syntax::NodeId;

/// How deep a node may stand; the root stands at 0. Trees are asked for it here, whoever made them, since all that walks
/// a program does so by recursion. A reader that makes trees by recursion has to ask before (`tree_json/src/rows.rt`).
pub const DEPTH_LIMIT: u32 = 1000;

/// What is asked of each node.
#[derive(Clone, Copy)]
pub enum Check<'a> {
    /// That it is not too deep.
    Depth,
    /// That it is well formed.
    Shape,
    /// That its span fits this source.
    Spans(&'a str),
    /// All of these.
    All(&'a str),
}

/// Whether a node at a place does not pass a check.
pub fn breaks(check: Check<'_>, place: Place, node: &Node) -> bool
    ensures { result ≡ breaks check.entry place node.now }
{
    match check {
        Check::Depth => DEPTH_LIMIT < place.depth,
        Check::Shape => !is_well_formed(place, node),
        Check::Spans(source) => !has_good_span(source, node),
        Check::All(source) => {
            DEPTH_LIMIT < place.depth
                || !is_well_formed(place, node)
                || !has_good_span(source, node)
        }
    }
}

/// The first node that does not pass a check, from one at a place down.
pub fn first_breaking(check: Check<'_>, place: Place, node: &Node) -> Option<NodeId>
    requires { place.depth + node_count node.now < 2 ^ 32 - 1 }
    ensures { result ≡ first_where (breaks check.entry) (placed_from place node.now) }
{
    if breaks(check, place, node) {
        return Some(node.node_id);
    }
    for (role, child) in node.children.as_slice() {
        let inside = place.of_child(node.kind, *role);
        match first_breaking(check, inside, child) {
            Some(id) => return Some(id),
            None => {}
        }
    }
    None
}
