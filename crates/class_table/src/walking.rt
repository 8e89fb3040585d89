//! What a walk notes of classes, node by node.
ghost use Rattle.std.specs.Prelude.{◌≡◌, OnOk, OnErr};
ghost use Rattle.class_table.specs.Building.{IsCurrent, with_body};
ghost use Rattle.class_table.specs.Noted.{class_entered, class_left};

use crate::builder::ClassTableBuilder;
use semantic_syntax::NodeId;
use semantic_tree::{AstKind, AstType};
use std::alloc::AllocError;

impl<'a> ClassTableBuilder<'a> {
    /// Enters a node below its parent: a class body is declared, and a private identifier is offered as a use. That
    /// there is no id for a class or its elements counts as want of memory. After it all is as before.
    pub fn enter(&mut self, kind: AstKind<'a>, parent: AstKind<'a>) -> Result<(), AllocError>
        requires { IsCurrent self.old }
        ensures ok { OnOk result
            (self.new ≡ class_entered parent.entry.node.now.kind parent.entry.node.now.node_id
            kind.entry.node.now self.old) }
        ensures err { OnErr result (self.new ≡ self.old) }
        ensures stays { IsCurrent self.new }
    {
        match kind.ty() {
            AstType::ClassBody => self.enter_body(kind, parent.node_id()),
            AstType::PrivateIdentifier => {
                self.add_private_identifier_reference(kind, kind.node_id(), parent)
            }
            _ => Ok(()),
        }
    }

    /// Enters a class body, of the class with the node `parent`.
    fn enter_body(&mut self, body: AstKind<'a>, parent: NodeId) -> Result<(), AllocError>
        requires { IsCurrent self.old }
        ensures ok { OnOk result (self.new ≡ with_body self.old body.entry.node.now parent) }
        ensures err { OnErr result (self.new ≡ self.old) }
        ensures stays { IsCurrent self.new }
    {
        if self.enabled && !self.has_room(body) {
            return Err(AllocError);
        }
        self.declare_class_body(body, parent)
    }

    /// Leaves a node of the kind: the class around a class is current then, or none.
    pub fn leave(&mut self, kind: AstType)
        requires { IsCurrent self.old }
        ensures left { self.new ≡ class_left kind self.old }
        ensures stays { IsCurrent self.new }
    {
        if kind == AstType::Class {
            self.pop_class();
        }
    }
}
