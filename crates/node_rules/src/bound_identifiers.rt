//! The names that a node binds, gathered in one pass over the part of the tree where they stand.

ghost use Rattle.std.specs.Prelude.{◌≡◌, [], ◌∷◌, ◌++◌, IfOk, OnOk};
ghost use Rattle.std.specs.Iterator.{YieldsFirstBy, item_count};
ghost use Rattle.semantic_tree.specs.BoundNames as by_role;
ghost use Rattle.semantic_tree.specs.ChildIter.{shown};
ghost use Rattle.semantic_tree.specs.Views.{is_role_of};
ghost use Rattle.semantic_model.specs.Names.{binding_roles, bound_names};
ghost use Rattle.node_rules.specs.BoundIdentifiers.{names_left};

use semantic_tree::bound_names::binds_by;
use semantic_tree::{AstKind, AstType, Role};
use std::alloc::{AllocError, Global};
use std::marker::Model;
use std::slice::Iter;

/// Whether what a child in the role binds, its parent of the kind binds too (ECMAScript 8.2.1, BoundNames).
fn binds_under(parent: AstType, role: Role) -> bool
    ensures { result ≡ is_role_of role (binding_roles parent) }
{
    match parent {
        AstType::VariableDeclaration => role == Role::Declarators,
        AstType::FormalParameters => role == Role::Items || role == Role::Rest,
        AstType::FormalParameter | AstType::CatchParameter => role == Role::Pattern,
        AstType::FormalParameterRest => role == Role::Rest,
        AstType::BindingRestElement => role == Role::Argument,
        AstType::ObjectPattern => role == Role::Properties || role == Role::Rest,
        AstType::BindingProperty => role == Role::Value,
        AstType::ArrayPattern => role == Role::Elements || role == Role::Rest,
        AstType::AssignmentPattern => role == Role::Left,
        _ => role == Role::Id,
    }
}

/// The binding identifiers of a node, in preorder. Most nodes bind one, which takes no memory. Contracts see their
/// nodes.
#[derive(Drop)]
pub struct BoundIdentifiers<'a> {
    first: Option<AstKind<'a>>,
    more: Vec<AstKind<'a>>,
}

impl<'a> Model for BoundIdentifiers<'a> {
    ghost use Rattle.std.specs.Prelude.{List};
    ghost use Rattle.std.specs.Coded.{codes};
    ghost use Rattle.semantic_tree.specs.contracts.node.Node as node;
    ghost use Rattle.semantic_tree.specs.declared.node.Node.{Node};
    ghost use Rattle.node_rules.specs.BoundIdentifiers.{first_and_rest, IsFilledInOrder};

    ghost Value = { List Node };

    ghost coded = { Prim.hlevel (codes, node.the_row.coded) };

    ghost view = { λ names. first_and_rest names.first names.more.items };

    ghost invariant = { λ names. IsFilledInOrder names.first names.more.items };
}

impl<'a> BoundIdentifiers<'a> {
    /// No names.
    fn new(alloc: Global) -> BoundIdentifiers<'a>
        ensures { result ≡ [] }
    {
        BoundIdentifiers {
            first: None,
            more: Vec::new(alloc),
        }
    }

    /// Adds a name.
    fn push(&mut self, name: AstKind<'a>) -> Result<(), AllocError>
        ensures { OnOk result (self.new ≡ self.old ++ name.entry.node.now ∷ []) }
    {
        match self.first {
            Some(_) => self.more.push(name)?,
            None => self.first = Some(name),
        }
        Ok(())
    }

    /// Adds the names that a node binds. For want of memory some may be added.
    #[tactic(auto, using(semantic_tree::specs::Falls::below))]
    fn push_bound(&mut self, node: AstKind<'a>) -> Result<(), AllocError>
        ensures { OnOk result (self.new ≡ self.old ++ bound_names node.entry.node.now) }
    {
        if node.ty() == AstType::BindingIdentifier {
            return self.push(node);
        }
        for (role, child) in node.node().children.as_slice() {
            if binds_under(node.ty(), *role) {
                self.push_bound(AstKind::new(child))?;
            }
        }
        Ok(())
    }

    /// Adds the names that a node binds by the roles of its parts alone. For want of memory some may be added.
    #[tactic(auto, using(semantic_tree::specs::Falls::below))]
    fn push_by_role(&mut self, part: AstKind<'a>) -> Result<(), AllocError>
        ensures { OnOk result (self.new ≡ self.old ++ by_role.bound_names part.entry.node.now) }
    {
        if part.ty() == AstType::BindingIdentifier {
            return self.push(part);
        }
        for (role, child) in part.node().children.as_slice() {
            if binds_by(part.ty(), *role) {
                self.push_by_role(AstKind::new(child))?;
            }
        }
        Ok(())
    }

    /// The names, in order.
    pub fn iter(&self) -> BoundIdentifiersIter<'_, 'a>
        ensures { names_left result ≡ self.now }
    {
        BoundIdentifiersIter {
            first: self.first,
            more: self.more.iter(),
        }
    }
}

/// The names of a list that are left.
#[derive(Drop)]
pub struct BoundIdentifiersIter<'n, 'a> {
    first: Option<AstKind<'a>>,
    more: Iter<'n, AstKind<'a>>,
}

impl<'n, 'a> Iterator for BoundIdentifiersIter<'n, 'a> {
    type Item = AstKind<'a>;

    ghost next_gives = { YieldsFirstBy shown names_left };

    ghost remaining = { item_count names_left };

    fn next(&mut self) -> Option<AstKind<'a>> {
        match self.first {
            Some(first) => {
                self.first = None;
                Some(first)
            }
            None => self.more.next().copied(),
        }
    }
}

/// The names that a node binds (ECMAScript 8.2.1, BoundNames), in preorder. Takes time linear in the node's part of the
/// tree, and no memory for one name. The only error is want of memory.
pub fn bound_identifiers<'a>(
    alloc: Global,
    node: AstKind<'a>,
) -> Result<BoundIdentifiers<'a>, AllocError>
    ensures { IfOk result (λ names. names ≡ bound_names node.entry.node.now) }
{
    let mut names = BoundIdentifiers::new(alloc);
    names.push_bound(node)?;
    Ok(names)
}

/// The names that a node binds by the roles of its parts alone, as `AstKind::bound_names` gives them where nodes are
/// numbered in preorder. Takes time linear in the node's part of the tree, and no memory for one name. The only error is
/// want of memory.
pub fn identifiers_by_role<'a>(
    alloc: Global,
    node: AstKind<'a>,
) -> Result<BoundIdentifiers<'a>, AllocError>
    ensures { IfOk result (λ names. names ≡ by_role.bound_names node.entry.node.now) }
{
    let mut names = BoundIdentifiers::new(alloc);
    names.push_by_role(node)?;
    Ok(names)
}
