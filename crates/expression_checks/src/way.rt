//! A way outward from a node that is gone once, however often it is asked to go on from a node.
ghost use Rattle.std.specs.Prelude.{◌≡◌, ◌&&◌, ◌||◌, ◌==◌, ℕ, List, drop, nat_lt, option_map};
ghost use Rattle.std.specs.Iterator.{YieldsFirstBy};
ghost use Rattle.semantic_kinds.specs.declared.role.Role.TheVariants as roles;
ghost use Rattle.semantic_tree.specs.Views.{is_child_in};
ghost use Rattle.semantic_tree.specs.declared.node.Node.{Node};
ghost use Rattle.check_model.specs.Search.{find_before};
ghost use Rattle.check_model.specs.Super as rows;
ghost use Rattle.check_model.specs.Surroundings.{nodes_outward};
ghost use Rattle.check_context.specs.Handed.{sight, IsContext};
ghost use Rattle.check_context.specs.Shown.{link_shown};
ghost use Rattle.expression_checks.specs.Ways.{from_id, is_below_all, leaves_value_from, way_left, way_links, GoesAlong};

use check_context::{CheckContext, is_child_in};
use node_store::AncestorKinds;
use semantic_syntax::NodeId;
use semantic_tree::{AstKind, AstType, Role};

/// A place on the way outward from a node. Ids fall on a path, so that no node that was passed is asked for again;
/// where they don't, the way begins anew.
#[derive(Drop)]
pub(crate) struct Way<'n, 'a> {
    /// The node at the place; none behind the last.
    here: Option<AstKind<'a>>,
    above: AncestorKinds<'n, 'a>,
    /// The least id of the nodes that were passed.
    least: Option<NodeId>,
}

/// The lower of an id and of another that there may be.
fn lower(least: Option<NodeId>, id: NodeId) -> NodeId
    ensures { (other : ℕ) → nat_lt other result ≡ (is_below_all least other && nat_lt other id) }
{
    match least {
        Some(least) if least < id => least,
        _ => id,
    }
}

/// Whether the node is a property, an accessor, a method or an index signature of a class.
fn is_element(kind: AstType) -> bool
    ensures { result ≡ rows.is_element kind }
{
    matches!(
        kind,
        AstType::PropertyDefinition
            | AstType::AccessorProperty
            | AstType::MethodDefinition
            | AstType::TSIndexSignature
    )
}

/// Whether the child is the value or the type of the element.
fn is_value(child: AstKind<'_>, element: AstKind<'_>) -> bool
    ensures { let link : Node × Node = (child.entry.node.now, element.entry.node.now) in
        result ≡ (is_child_in roles.Value link.1 link.0
        || is_child_in roles.Annotation link.1 link.0) }
{
    is_child_in(Role::Value, element, child) || is_child_in(Role::Annotation, element, child)
}

impl<'n, 'a> Way<'n, 'a> {
    /// The way from a node, which is the first place.
    pub(crate) fn new(kind: AstKind<'a>, ctx: &CheckContext<'a, 'n>) -> Way<'n, 'a>
        requires { IsContext ctx.now }
        ensures left { way_left result ≡ nodes_outward (sight kind.entry.node.now ctx.now) }
        ensures along { GoesAlong (nodes_outward (sight kind.entry.node.now ctx.now)) result }
    {
        Way {
            here: Some(kind),
            above: ctx.above(),
            least: None,
        }
    }

    /// Whether no node that was passed has the id, as far as ids tell.
    fn is_before(&self, id: NodeId) -> bool
        ensures { result ≡ is_below_all self.now.least id }
    {
        match self.least {
            Some(least) => id < least,
            None => true,
        }
    }

    /// Goes on to the next place.
    fn step(&mut self)
        ensures left { way_left self.new ≡ drop 1 (way_left self.old) }
        ensures along { (nodes : List Node) → GoesAlong nodes self.old → GoesAlong nodes self.new }
    {
        if let Some(node) = self.here {
            self.least = Some(lower(self.least, node.node_id()));
            self.here = self.above.next();
        }
    }

    /// Goes on to the next place, with the node there and the one that it is reached from.
    fn next_link(&mut self) -> Option<(AstKind<'a>, AstKind<'a>)>
        ensures link { YieldsFirstBy link_shown way_links self.old result self.new }
        ensures along { (nodes : List Node) → GoesAlong nodes self.old → GoesAlong nodes self.new }
    {
        let child = self.here?;
        self.step();
        let parent = self.here?;
        Some((child, parent))
    }

    /// Goes on to the node with the id, which may be here.
    fn go_on_to(&mut self, id: NodeId)
        ensures left { way_left self.new ≡ from_id id (way_left self.old) }
        ensures along { (nodes : List Node) → GoesAlong nodes self.old → GoesAlong nodes self.new }
    {
        while let Some(node) = self.here {
            if node.node_id() == id {
                return;
            }
            self.step();
        }
    }

    /// Stands before the node with the id: where that may have been passed, the way begins anew.
    fn stand_before(&mut self, id: NodeId, kind: AstKind<'a>, ctx: &CheckContext<'a, 'n>)
        requires context { IsContext ctx.now }
        requires along { GoesAlong (nodes_outward (sight kind.node.now ctx.now)) self.old }
        ensures left { from_id id (way_left self.new)
            ≡ from_id id (nodes_outward (sight kind.entry.node.now ctx.now)) }
        ensures along { GoesAlong (nodes_outward (sight kind.entry.node.now ctx.now)) self.new }
    {
        if !self.is_before(id) {
            *self = Way::new(kind, ctx);
        }
    }

    /// Goes to the node with the id.
    pub(crate) fn go_to(&mut self, id: NodeId, kind: AstKind<'a>, ctx: &CheckContext<'a, 'n>)
        requires context { IsContext ctx.now }
        requires along { GoesAlong (nodes_outward (sight kind.node.now ctx.now)) self.old }
        ensures left { way_left self.new
            ≡ from_id id (nodes_outward (sight kind.entry.node.now ctx.now)) }
        ensures along { GoesAlong (nodes_outward (sight kind.entry.node.now ctx.now)) self.new }
    {
        self.stand_before(id, kind, ctx);
        self.go_on_to(id);
    }

    /// Goes on to the first element of a class that is left, below the class's own node; to that where there is none.
    fn next_element(&mut self, class: NodeId) -> Option<(AstKind<'a>, AstKind<'a>)>
        ensures link { option_map link_shown result
            ≡ find_before (λ link. link.1.node_id == class) (λ link. rows.is_element link.1.kind)
            (way_links self.old) }
        ensures along { (nodes : List Node) → GoesAlong nodes self.old → GoesAlong nodes self.new }
    {
        while let Some((child, parent)) = self.next_link() {
            if parent.node_id() == class {
                return None;
            }
            if is_element(parent.ty()) {
                return Some((child, parent));
            }
        }
        None
    }

    /// Whether the first element of the class, going outward from here, is left through its value or its type.
    pub(crate) fn leaves_value(&mut self, class: NodeId) -> bool
        ensures value { result ≡ leaves_value_from class (way_left self.old) }
        ensures along { (nodes : List Node) → GoesAlong nodes self.old → GoesAlong nodes self.new }
    {
        match self.next_element(class) {
            Some((child, element)) => is_value(child, element),
            None => false,
        }
    }
}
