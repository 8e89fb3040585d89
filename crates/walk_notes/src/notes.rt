//! Classes and labels as a walk notes them, node by node.
ghost use Rattle.std.specs.Prelude.{◌≡◌, OnOk, OnErr};
ghost use Rattle.node_rules.specs.Seen.{parent_path};
ghost use Rattle.class_table.specs.Building.{IsCurrent};
ghost use Rattle.class_table.specs.NotedSteps.{entered_under};
ghost use Rattle.walk_notes.specs.NoteLists.{nothing_noted, noting, leaving, has_label_kind, is_noted, is_noted_behind};

use class_table::{ClassTable, ClassTableBuilder};
use semantic_syntax::NodeId;
use semantic_tree::{AstKind, AstType};
use std::alloc::{AllocError, Global};
use std::marker::Model;
use unused_labels::UnusedLabels;

/// The classes that a walk has noted, if it notes them, and the labelled statements. A walk that calls `enter` and
/// `leave` with each node has those of the program in the end.
#[derive(Drop)]
pub struct Notes<'a> {
    classes: ClassTableBuilder<'a>,
    labels: UnusedLabels<'a>,
}

impl<'a> Model for Notes<'a> {
    ghost use Rattle.class_table.specs.Building.{IsCurrent};
    ghost use Rattle.unused_labels.specs.LabelStack.{labels_seen};
    ghost use Rattle.walk_notes.specs.NoteLists.{NoteLists};

    ghost Value = { NoteLists };

    ghost view = { λ n. record { classes = n.classes; labels = labels_seen n.labels } };

    ghost invariant = { λ n. IsCurrent n.classes };
}

/// Whether a node of the kind may have a label: a labelled statement or a jump.
fn may_have_label(kind: AstType) -> bool
    ensures { result ≡ has_label_kind kind }
{
    matches!(
        kind,
        AstType::LabeledStatement | AstType::BreakStatement | AstType::ContinueStatement
    )
}

/// Whether something may be noted where a node of the kind is entered. For another one `enter` does nothing.
pub fn is_noted(kind: AstType) -> bool
    ensures { result ≡ is_noted kind }
{
    matches!(
        kind,
        AstType::LabeledStatement
            | AstType::BreakStatement
            | AstType::ContinueStatement
            | AstType::ClassBody
            | AstType::PrivateIdentifier
    )
}

/// Whether something may be noted where a node of the kind is left. For another one `leave` does nothing.
pub fn is_noted_behind(kind: AstType) -> bool
    ensures { result ≡ is_noted_behind kind }
{
    matches!(kind, AstType::LabeledStatement | AstType::Class)
}

impl<'a> Notes<'a> {
    /// Nothing is noted yet. Classes will be noted, or not.
    pub fn new(alloc: Global, classes: bool) -> Notes<'a>
        ensures { result ≡ nothing_noted classes }
    {
        let mut builder = ClassTableBuilder::new(alloc);
        builder.enabled = classes;
        Notes {
            classes: builder,
            labels: UnusedLabels::new(alloc),
        }
    }

    /// Enters a node below its parent; the root has none. After want of memory all is as before.
    #[tactic(auto, using(crate::proofs::Unnoted::unnoted))]
    pub fn enter(
        &mut self,
        kind: AstKind<'a>,
        parent: Option<AstKind<'a>>,
    ) -> Result<(), AllocError>
        ensures ok { OnOk result (self.new
            ≡ noting (parent_path parent.entry) kind.entry.node.now self.old) }
        ensures err { OnErr result (self.new ≡ self.old) }
    {
        if may_have_label(kind.ty()) {
            self.labels.enter(kind)
        } else {
            self.enter_class(kind, parent)
        }
    }

    /// Enters a node below its parent, as far as classes go.
    fn enter_class(
        &mut self,
        kind: AstKind<'a>,
        parent: Option<AstKind<'a>>,
    ) -> Result<(), AllocError>
        ensures ok { OnOk result (self.new
            ≡ record self.old {
              classes = entered_under
                  (parent_path parent.entry) kind.entry.node.now self.old.classes;
            }) }
        ensures err { OnErr result (self.new ≡ self.old) }
    {
        match parent {
            Some(parent) => self.classes.enter(kind, parent),
            None => Ok(()),
        }
    }

    /// Leaves a node. After want of memory all is as before.
    pub fn leave(&mut self, kind: AstKind<'a>) -> Result<(), AllocError>
        ensures ok { OnOk result (self.new ≡ leaving kind.entry.node.now self.old) }
        ensures err { OnErr result (self.new ≡ self.old) }
    {
        self.labels.leave(kind)?;
        self.classes.leave(kind.ty());
        Ok(())
    }

    /// The classes so far, and which is current.
    pub fn classes(&self) -> &ClassTableBuilder<'a>
        ensures value { result.now ≡ self.now.classes }
        ensures current { IsCurrent result.now }
    {
        &self.classes
    }

    /// The classes, and the nodes of the labelled statements that no jump names.
    pub fn into_parts(self) -> (ClassTable<'a>, Vec<NodeId>)
        ensures classes { result.0 ≡ self.entry.classes.classes }
        ensures labels { result.1.items ≡ self.entry.labels.unused }
    {
        (self.classes.build(), self.labels.labels)
    }
}
