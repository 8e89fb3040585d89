//! The table of classes, as a walk makes it.
ghost use Rattle.std.specs.Prelude.{◌≡◌, ◌<◌, ◌≤◌, ◌&&◌, nat_lt, nat_le, true, false, None, length, OnOk, OnErr};
ghost use Rattle.semantic_tree.specs.Nodes.{trees};
ghost use Rattle.semantic_kinds.specs.declared.kind.AstType.TheVariants.{MethodDefinition, PropertyDefinition, AccessorProperty};
ghost use Rattle.semantic_model.specs.Element.{elements_of};
ghost use Rattle.semantic_model.specs.Class.{uses_under};
ghost use Rattle.class_table.specs.Lists.{no_classes};
ghost use Rattle.class_table.specs.Building.{IsCurrent, HasRoomFor, with_body, with_member, with_use_under, popped};

use crate::making::{element_of, elements_of_body};
use crate::private_name::PrivateIdentifierReference;
use crate::table::ClassTable;
use semantic_kinds::class::is_member;
use semantic_syntax::{ClassId, NodeId};
use semantic_tree::{AstKind, AstType};
use std::alloc::{AllocError, Global};

/// The table of classes, and the class that is current. After want of memory each call leaves all as before.
#[derive(Drop)]
pub struct ClassTableBuilder<'a> {
    /// Whether classes and uses are noted at all; at first they aren't.
    pub enabled: bool,
    /// The innermost class that the walk is in, from its body on.
    pub current_class_id: Option<ClassId>,
    pub classes: ClassTable<'a>,
}

/// Whether a private identifier under such a node uses an element (ECMAScript 15.7.1, AllPrivateIdentifiersValid):
/// behind a dot, or before a private `in`.
fn uses_under(parent: AstType) -> bool
    ensures { result ≡ uses_under parent }
{
    parent == AstType::PrivateInExpression || is_member(parent)
}

impl<'a> ClassTableBuilder<'a> {
    /// No classes, and none is noted until it is enabled.
    pub fn new(alloc: Global) -> ClassTableBuilder<'a>
        ensures { result ≡ record {
          enabled = false;
          current_class_id = None;
          classes = no_classes;
        } }
    {
        ClassTableBuilder {
            enabled: false,
            current_class_id: None,
            classes: ClassTable::new(alloc),
        }
    }

    /// Hands out the classes that are noted.
    pub fn build(self) -> ClassTable<'a>
        ensures { result ≡ self.entry.classes }
    {
        self.classes
    }

    /// Whether there are ids for one more class, and for an element of each child of a body.
    #[tactic(auto, using(crate::proofs::Room::elements_fit_trees))]
    pub fn has_room(&self, body: AstKind<'_>) -> bool
        ensures answer { result ≡ (nat_lt (length self.now.classes.nodes) u32.MAX
            && nat_le (length (trees body.entry.node.now.children)) u32.MAX) }
        ensures class { result ≡ true → length self.now.classes.nodes < u32.MAX }
        ensures elements { result ≡ true
            → length (elements_of body.entry.node.now.children) ≤ u32.MAX }
    {
        self.classes.len() < u32::MAX as usize
            && body.node().children.as_slice().len() <= u32::MAX as usize
    }

    /// Declares the class of a body, of the node `parent`, inside the current class and with the elements that its
    /// members make, and makes it current. Does nothing where classes aren't noted.
    pub fn declare_class_body(
        &mut self,
        body: AstKind<'a>,
        parent: NodeId,
    ) -> Result<(), AllocError>
        requires current { IsCurrent self.old }
        requires class { self.old.enabled ≡ true → length self.old.classes.nodes < u32.MAX }
        requires elements { self.old.enabled ≡ true
            → length (elements_of body.node.now.children) ≤ u32.MAX }
        ensures ok { OnOk result (self.new ≡ with_body self.old body.entry.node.now parent) }
        ensures err { OnErr result (self.new ≡ self.old) }
        ensures stays { IsCurrent self.new }
    {
        if !self.enabled {
            return Ok(());
        }
        let elements = elements_of_body(self.classes.allocator(), body)?;
        let id = self
            .classes
            .declare_with_elements(self.current_class_id, parent, elements)?;
        self.current_class_id = Some(id);
        Ok(())
    }

    /// Adds the element that an accessor property makes to the current class, if there is one.
    pub fn declare_class_accessor(&mut self, element: AstKind<'a>) -> Result<(), AllocError>
        requires kind { element.node.now.kind ≡ AccessorProperty }
        requires current { IsCurrent self.old }
        requires room { HasRoomFor self.old element.node.now }
        ensures ok { OnOk result (self.new ≡ with_member self.old element.entry.node.now) }
        ensures err { OnErr result (self.new ≡ self.old) }
        ensures stays { IsCurrent self.new }
    {
        self.declare_member(element)
    }

    /// Adds the element that a property makes to the current class, if there is one.
    pub fn declare_class_property(&mut self, element: AstKind<'a>) -> Result<(), AllocError>
        requires kind { element.node.now.kind ≡ PropertyDefinition }
        requires current { IsCurrent self.old }
        requires room { HasRoomFor self.old element.node.now }
        ensures ok { OnOk result (self.new ≡ with_member self.old element.entry.node.now) }
        ensures err { OnErr result (self.new ≡ self.old) }
        ensures stays { IsCurrent self.new }
    {
        self.declare_member(element)
    }

    /// Adds the element that a method makes to the current class, if there is one.
    pub fn declare_class_method(&mut self, element: AstKind<'a>) -> Result<(), AllocError>
        requires kind { element.node.now.kind ≡ MethodDefinition }
        requires current { IsCurrent self.old }
        requires room { HasRoomFor self.old element.node.now }
        ensures ok { OnOk result (self.new ≡ with_member self.old element.entry.node.now) }
        ensures err { OnErr result (self.new ≡ self.old) }
        ensures stays { IsCurrent self.new }
    {
        self.declare_member(element)
    }

    /// Adds the element that a member makes, if it makes one, to the current class, if there is one.
    fn declare_member(&mut self, member: AstKind<'a>) -> Result<(), AllocError>
        requires current { IsCurrent self.old }
        requires room { HasRoomFor self.old member.node.now }
        ensures ok { OnOk result (self.new ≡ with_member self.old member.entry.node.now) }
        ensures err { OnErr result (self.new ≡ self.old) }
        ensures stays { IsCurrent self.new }
    {
        let Some(c) = self.current_class_id else {
            return Ok(());
        };
        match element_of(member) {
            Some(element) => self.classes.add_element(c, element),
            None => Ok(()),
        }
    }

    /// Adds the use that a private identifier is under its parent to the current class, with the id `node` and the
    /// elements that it may mean there. Does nothing where classes aren't noted, where no class is current, and under a
    /// parent that is neither a private `in` nor a member expression.
    pub fn add_private_identifier_reference(
        &mut self,
        ident: AstKind<'a>,
        node: NodeId,
        parent: AstKind<'a>,
    ) -> Result<(), AllocError>
        requires { IsCurrent self.old }
        ensures ok { OnOk result
            (self.new ≡ with_use_under self.old ident.entry.node.now node
            parent.entry.node.now.kind) }
        ensures err { OnErr result (self.new ≡ self.old) }
        ensures stays { IsCurrent self.new }
    {
        let Some(class) = self.current_class_id else {
            return Ok(());
        };
        if !self.enabled || !uses_under(parent.ty()) {
            return Ok(());
        }
        let alloc = self.classes.allocator();
        let element_ids = self
            .classes
            .get_element_ids(alloc, class, ident.text(), true)?;
        self.classes.add_private_identifier_reference(
            class,
            PrivateIdentifierReference::new(node, ident.text(), ident.span(), element_ids),
        )
    }

    /// Leaves the current class: the class around it is current then, or none. Does nothing where classes aren't noted
    /// and where no class is current.
    pub fn pop_class(&mut self)
        requires { IsCurrent self.old }
        ensures popped { self.new ≡ popped self.old }
        ensures stays { IsCurrent self.new }
    {
        if !self.enabled {
            return;
        }
        if let Some(c) = self.current_class_id {
            self.current_class_id = self.classes.parent_of(c);
        }
    }
}
