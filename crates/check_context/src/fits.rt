//! Whether what is handed to a check fits together, for a caller that isn't a walk.
ghost use Rattle.std.specs.Prelude.{◌≡◌};
ghost use Rattle.check_context.specs.Fitting.{is_in_store, is_current, context_fits, fits_node};

use crate::context::CheckContext;
use class_table::ClassTableBuilder;
use node_store::Ancestry;
use semantic_tree::AstKind;
use semantic_tree::program::SOURCE_LIMIT;
use semantic_tree::sound::is_sound;

/// Whether a store, where there is one, has the current node.
fn is_in_store(ancestry: &Ancestry<'_, '_>) -> bool
    ensures { result ≡ is_in_store ancestry.now }
{
    match ancestry {
        Ancestry::Nodes {
            nodes,
            current_node_id,
        } => current_node_id.index() < nodes.len(),
        Ancestry::Stack(_) => true,
    }
}

/// Whether the current class, if there is one, is in its table.
fn is_current(classes: &ClassTableBuilder<'_>) -> bool
    ensures { result ≡ is_current classes.now }
{
    match classes.current_class_id {
        Some(class) => class.index() < classes.classes.len(),
        None => true,
    }
}

impl<'a, 'n> CheckContext<'a, 'n> {
    /// Whether the current node is in its store, class and scope are in their tables, and the source keeps the limit of a
    /// program's.
    fn fits(&self) -> bool
        ensures { result ≡ context_fits self.now }
    {
        is_in_store(&self.ancestry)
            && is_current(self.classes)
            && self.current_scope_id.index() < self.scoping.scopes_len()
            && self.source_text.len() <= SOURCE_LIMIT
    }

    /// Whether all this fits, and the node stands in the source, on characters.
    pub fn fits_node(&self, kind: AstKind<'_>) -> bool
        ensures { result ≡ fits_node kind.entry.node.now self.now }
    {
        self.fits() && is_sound(self.source_text, kind.span())
    }
}
