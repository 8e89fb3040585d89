//! What a walk notes of labels, node by node.
ghost use Rattle.std.specs.Prelude.{◌≡◌, ◌||◌, OnOk, OnErr};
ghost use Rattle.semantic_model.specs.Label.{is_jump, is_labelled};
ghost use Rattle.unused_labels.specs.LabelStack.{labels_seen};
ghost use Rattle.unused_labels.specs.Labelling.{node_entered, node_left};

use crate::labels::UnusedLabels;
use semantic_tree::{AstKind, AstType, Role};
use std::alloc::AllocError;

/// Whether a node of the kind may have a label: a labelled statement or a jump.
fn may_have_label(kind: AstType) -> bool
    ensures { result ≡ (is_jump kind || is_labelled kind) }
{
    matches!(
        kind,
        AstType::LabeledStatement | AstType::BreakStatement | AstType::ContinueStatement
    )
}

impl<'a> UnusedLabels<'a> {
    /// Enters a node: the walk comes to a labelled statement, and a jump names its label. After want of memory all is
    /// as before.
    #[tactic(auto, using(crate::proofs::Walked::met))]
    pub fn enter(&mut self, kind: AstKind<'a>) -> Result<(), AllocError>
        ensures ok { OnOk result
            (labels_seen self.new ≡ node_entered kind.entry.node.now (labels_seen self.old)) }
        ensures err { OnErr result (labels_seen self.new ≡ labels_seen self.old) }
    {
        if may_have_label(kind.ty()) {
            self.meet(kind)
        } else {
            Ok(())
        }
    }

    /// Meets the label of a labelled statement or a jump, if it has one.
    fn meet(&mut self, kind: AstKind<'a>) -> Result<(), AllocError>
        ensures ok { OnOk result
            (labels_seen self.new ≡ node_entered kind.entry.node.now (labels_seen self.old)) }
        ensures err { OnErr result (labels_seen self.new ≡ labels_seen self.old) }
    {
        let Some(label) = kind.child(Role::Label) else {
            return Ok(());
        };
        match kind.ty() {
            AstType::LabeledStatement => self.add(label.text(), kind.node_id()),
            AstType::BreakStatement | AstType::ContinueStatement => {
                self.reference(label.text());
                Ok(())
            }
            _ => Ok(()),
        }
    }

    /// Leaves a node: a labelled statement is listed if no jump names it. After want of memory all is as before.
    pub fn leave(&mut self, kind: AstKind<'a>) -> Result<(), AllocError>
        ensures ok { OnOk result
            (labels_seen self.new ≡ node_left kind.entry.node.now (labels_seen self.old)) }
        ensures err { OnErr result (labels_seen self.new ≡ labels_seen self.old) }
    {
        if kind.ty() == AstType::LabeledStatement && kind.child(Role::Label).is_some() {
            return self.mark_unused();
        }
        Ok(())
    }
}
