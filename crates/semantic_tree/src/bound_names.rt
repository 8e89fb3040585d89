//! The names that patterns, declarators, declarations, parameters and parameter lists bind.

ghost use Rattle.std.specs.Prelude.{◌≡◌};
ghost use Rattle.std.specs.Option.{option_map};
ghost use Rattle.std.specs.Iterator.{YieldsFirstBy, item_count};
ghost use Rattle.semantic_tree.specs.Nodes.{first_of};
ghost use Rattle.semantic_tree.specs.ChildIter.{shown};
ghost use Rattle.semantic_tree.specs.Tree.{IsPreorder};
ghost use Rattle.semantic_tree.specs.BoundNames.{binds_by, bound_names, given_names, rising, is_plain_parameter, is_simple_parameter_list};
ghost use Rattle.semantic_tree.specs.NameIter.{names_left, names_below};

use crate::node::Node;
use crate::view::AstKind;
use semantic_kinds::{AstType, Role};

/// Whether what a child in the role binds, its parent of the kind binds too.
pub fn binds_by(parent: AstType, role: Role) -> bool
    ensures { result ≡ binds_by parent role }
{
    match role {
        Role::Declarators
        | Role::Id
        | Role::Items
        | Role::Pattern
        | Role::Rest
        | Role::Argument
        | Role::Properties
        | Role::Elements => true,
        Role::Value => parent == AstType::BindingProperty,
        Role::Left => parent == AstType::AssignmentPattern,
        _ => false,
    }
}

/// The first name that the node binds, in preorder, whose id is at least the number.
fn first_name<'a>(node: &'a Node, from: usize) -> Option<AstKind<'a>>
    ensures { option_map shown result ≡ first_of (rising from (bound_names node.now)) }
{
    if node.kind == AstType::BindingIdentifier {
        return if from <= node.node_id.index() {
            Some(AstKind::new(node))
        } else {
            None
        };
    }
    for (role, child) in node.children.as_slice() {
        if binds_by(node.kind, *role) {
            match first_name(child, from) {
                Some(found) => return Some(found),
                None => {}
            }
        }
    }
    None
}

/// The first name that a child in the role gives its parent, whose id is at least the number.
fn name_in<'a>(parent: AstType, role: Role, child: &'a Node, from: usize) -> Option<AstKind<'a>>
    ensures { option_map shown result ≡ first_of (rising from (given_names parent role child.now)) }
{
    if binds_by(parent, role) {
        first_name(child, from)
    } else {
        None
    }
}

/// The names that a node binds, in preorder. No stack is kept: the next name is the one with the least
/// id above those given, and children that bind none of these are passed for good.
#[derive(Clone, Copy)]
pub struct BoundNames<'a> {
    own: Option<AstKind<'a>>,
    parent: AstType,
    left: &'a [(Role, Node)],
    from: usize,
}

impl<'a> BoundNames<'a> {
    /// The next name below the parent.
    fn next_below(&mut self) -> Option<AstKind<'a>>
        ensures names { YieldsFirstBy shown names_below self.old result self.new }
        ensures own { self.new.own ≡ self.old.own }
    {
        while let Some(((role, child), rest)) = self.left.split_first() {
            match name_in(self.parent, *role, child, self.from) {
                Some(found) => {
                    self.from = found.node_id().index() + 1;
                    return Some(found);
                }
                None => self.left = rest,
            }
        }
        None
    }
}

impl<'a> Iterator for BoundNames<'a> {
    type Item = AstKind<'a>;

    ghost next_gives = { YieldsFirstBy shown names_left };

    ghost remaining = { item_count names_left };

    fn next(&mut self) -> Option<AstKind<'a>> {
        match self.own {
            Some(own) => {
                self.own = None;
                Some(own)
            }
            None => self.next_below(),
        }
    }
}

impl<'a> AstKind<'a> {
    /// The names that a pattern, declarator, declaration, parameter or parameter list binds, in
    /// preorder.
    #[tactic(auto, using(crate::proofs::Preorder::names_rise))]
    pub fn bound_names(self) -> BoundNames<'a>
        ensures rising { names_left result ≡ rising 0 (bound_names self.entry.node.now) }
        ensures in_order { IsPreorder self.entry.node.now
            → names_left result ≡ bound_names self.entry.node.now }
    {
        if self.ty() == AstType::BindingIdentifier {
            return BoundNames {
                own: Some(self),
                parent: self.ty(),
                left: &[],
                from: 0,
            };
        }
        BoundNames {
            own: None,
            parent: self.ty(),
            left: self.node().children.as_slice(),
            from: 0,
        }
    }

    /// Whether an item is a plain name without initializer.
    fn is_plain_parameter(self) -> bool
        ensures { result ≡ is_plain_parameter self.entry.node.now }
    {
        match self.child(Role::Pattern) {
            Some(pattern) => {
                pattern.ty() == AstType::BindingIdentifier
                    && self.child(Role::Initializer).is_none()
            }
            None => false,
        }
    }

    /// Whether a parameter list has no rest, and each item is a plain name without initializer.
    pub fn is_simple_parameter_list(self) -> bool
        ensures { result ≡ is_simple_parameter_list self.entry.node.now }
    {
        if self.child(Role::Rest).is_some() {
            return false;
        }
        for item in self.children(Role::Items) {
            if !item.is_plain_parameter() {
                return false;
            }
        }
        true
    }
}
