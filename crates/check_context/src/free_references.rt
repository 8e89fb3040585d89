//! References that are tied to no symbol.
ghost use Rattle.std.specs.Prelude.{◌≡◌, ◌==◌};
ghost use Rattle.std.specs.List.{list_any};
ghost use Rattle.check_context.specs.Handed.{around};

use crate::context::CheckContext;
use semantic_tree::AstKind;

impl<'a, 'n> CheckContext<'a, 'n> {
    /// Whether an identifier is a reference that is tied to no symbol.
    #[tactic(auto, using(crate::proofs::FreeReferences::free))]
    pub fn is_free(&self, ident: AstKind<'_>) -> bool
        ensures { result ≡ list_any (λ node. node == ident.entry.node.now.node_id)
            (around self.now).unresolved }
    {
        self.tables.attest();
        match self.tables.reference_of(ident.node_id()) {
            Some(reference) if reference.index() < self.scoping.references_len() => {
                !self.scoping.has_binding(reference)
            }
            _ => false,
        }
    }
}
