//! Where a node stands, as far as it tells whether others see its name.
ghost use Rattle.std.specs.Prelude.{◌≡◌, Some, None, false};
ghost use Rattle.semantic_kinds.specs.declared.role.Role.TheVariants.{Root as root_role};
ghost use Rattle.mangle_model.specs.MayMangle.{is_property_parameter};
ghost use Rattle.mangler.specs.Spots.{child_spot, is_jsx_element, names_element_or_property, names_property};

use semantic_kinds::{AstType, Mark, Role};
use semantic_tree::Node;

/// Where a node stands.
#[derive(Clone, Copy)]
pub struct Spot {
    role: Role,
    parent: Option<AstType>,
    /// The parent is a parameter that is a property too.
    in_property: bool,
    /// So it is, or it is the default of one.
    names_property: bool,
}

/// Whether the node is a parameter that is a property too.
fn is_property_parameter(node: &Node) -> bool
    ensures { result ≡ is_property_parameter node.now }
{
    node.kind == AstType::FormalParameter
        && (node.marks.has(Mark::Public)
            || node.marks.has(Mark::Private)
            || node.marks.has(Mark::Protected)
            || node.marks.has(Mark::Readonly)
            || node.marks.has(Mark::Override))
}

impl Spot {
    /// The spot of a root.
    pub fn root() -> Spot
        ensures { result ≡ record {
          role = root_role;
          parent = None;
          in_property = false;
          names_property = false;
        } }
    {
        Spot {
            role: Role::Root,
            parent: None,
            in_property: false,
            names_property: false,
        }
    }

    /// The spot of a child of a node that stands here.
    pub fn of_child(self, node: &Node, role: Role) -> Spot
        ensures { result ≡ child_spot self node.now role }
    {
        let in_property = is_property_parameter(node);
        Spot {
            role,
            parent: Some(node.kind),
            in_property,
            names_property: in_property
                || (node.kind == AstType::AssignmentPattern && self.in_property),
        }
    }

    /// Whether the text of a node of the kind is also the name of a property or of a member here.
    pub fn names_property(self, kind: AstType) -> bool
        ensures { result ≡ names_property self kind }
    {
        let is_target = match self.parent {
            Some(parent) => parent == AstType::AssignmentTargetPropertyIdentifier,
            None => false,
        };
        kind == AstType::TSEnumMember || (self.role == Role::Binding && is_target)
    }

    /// Whether the parent is a tag of an element.
    fn is_in_element(self) -> bool
        ensures { result ≡ is_jsx_element self.parent }
    {
        match self.parent {
            Some(parent) => matches!(
                parent,
                AstType::JSXOpeningElement | AstType::JSXClosingElement
            ),
            None => false,
        }
    }

    /// Whether a name here is also that of an element, or of a parameter that is a property too.
    pub fn names_element_or_property(self) -> bool
        ensures { result ≡ names_element_or_property self }
    {
        (self.role == Role::Name && self.is_in_element()) || self.names_property
    }
}
