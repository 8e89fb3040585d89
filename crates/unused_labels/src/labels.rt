//! Which labels no jump names.

ghost use Rattle.std.specs.Prelude.{◌≡◌, [], OnOk, OnErr};
ghost use Rattle.std.specs.Str.{chars};
ghost use Rattle.unused_labels.specs.OpenNames.{names_around};

use crate::open_labels::OpenLabels;
use semantic_syntax::{Ident, NodeId};
use std::alloc::{AllocError, Global};

/// A labelled statement around the place where the walk stands.
#[derive(Clone, Copy)]
pub struct LabeledScope<'a> {
    pub name: Ident<'a>,
    /// Whether a jump names it.
    pub used: bool,
    pub node_id: NodeId,
}

/// The labelled statements around the place where a walk stands, and those that it left and no jump names. A jump
/// names the innermost of its label, also across functions, where ECMAScript sees an error
/// (ContainsUndefinedBreakTarget).
#[derive(Drop)]
pub struct UnusedLabels<'a> {
    /// The labelled statements around the place, innermost last.
    pub stack: Vec<LabeledScope<'a>>,
    /// The labelled statements that no jump names, in the order in which they were left.
    pub labels: Vec<NodeId>,
    /// The labels of the stack, by their names.
    names: OpenLabels<'a>,
    ghost named: { names ≡ names_around stack.items },
}

impl<'a> UnusedLabels<'a> {
    ghost use Rattle.unused_labels.specs.LabelStack.{labels_seen, no_labels, label_entered, jumped, label_left};

    /// The walk has come to no label yet.
    pub fn new(alloc: Global) -> Self
        ensures { labels_seen result ≡ no_labels }
    {
        UnusedLabels {
            stack: Vec::new(alloc),
            labels: Vec::new(alloc),
            names: OpenLabels::new(alloc),
        }
    }

    /// Comes to a labelled statement. After want of memory all is as before.
    pub fn add(&mut self, name: Ident<'a>, node: NodeId) -> Result<(), AllocError>
        ensures ok { OnOk result
            (labels_seen self.new
            ≡ label_entered (labels_seen self.old) (chars name.entry.text.now) node) }
        ensures err { OnErr result (labels_seen self.new ≡ labels_seen self.old) }
    {
        let label = LabeledScope {
            name,
            used: false,
            node_id: node,
        };
        self.stack.reserve(1)?;
        self.names.push(name)?;
        let _ = self.stack.push(label);
        Ok(())
    }

    /// A jump names the label: the innermost statement of that label, if there is one, is used.
    pub fn reference(&mut self, name: Ident<'_>)
        ensures { labels_seen self.new ≡ jumped (labels_seen self.old) (chars name.entry.text.now) }
    {
        if let Some(place) = self.names.innermost(name) {
            self.stack[place].used = true;
        }
    }

    /// Leaves the innermost labelled statement, if there is one, and lists it if no jump names it. After want of memory
    /// all is as before.
    pub fn mark_unused(&mut self) -> Result<(), AllocError>
        ensures ok { OnOk result (labels_seen self.new ≡ label_left (labels_seen self.old)) }
        ensures err { OnErr result (labels_seen self.new ≡ labels_seen self.old) }
    {
        if let Some(label) = self.stack.last() {
            if !label.used {
                self.labels.push(label.node_id)?;
            }
        }
        self.names.pop();
        let _left = self.stack.pop();
        Ok(())
    }

    /// Attests that the walk is in no labelled statement.
    pub fn assert_empty(&self)
        requires { self.now.stack.items ≡ [] }
    {
        prove!(self.stack.is_empty());
    }
}
