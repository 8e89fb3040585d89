//! Whether a reference means a global variable.

ghost use Rattle.std.specs.Prelude.{◌≡◌, Bool, false, nat_eq};
ghost use Rattle.std.specs.Map.{lookup};
ghost use Rattle.std.specs.Option.{option_map_or};
ghost use Rattle.semantic_syntax.specs.Tables.{Name, Tables};
ghost use Rattle.scoping_rows.specs.Names.{name_of};
ghost use Rattle.semantic_syntax.specs.NodeEntries.{NodeEntries};
ghost use Rattle.semantic_queries.specs.FreeReference.{is_free, is_free_at, is_free_named};

use scoping::{NodeTables, Scoping};
use semantic_syntax::{Ident, NodeId, ReferenceId};
use semantic_tree::{AstKind, AstType};

/// What may be a reference to a global variable: one without symbol.
pub trait IsGlobalReference {
    // Whether it is one, by the tables.
    ghost is_global: { Self → Tables → NodeEntries → Bool };

    /// Whether it is a reference without symbol. A reference that the tables don't hold is none.
    fn is_global_reference(&self, scoping: &Scoping, tables: &NodeTables) -> bool
        ensures { result ≡ is_global self.now scoping.now tables.now };
}

impl IsGlobalReference for ReferenceId {
    ghost is_global = { λ r t nodes. is_free t r };

    fn is_global_reference(&self, scoping: &Scoping, _tables: &NodeTables) -> bool {
        self.index() < scoping.references_len() && !scoping.has_binding(*self)
    }
}

/// Whether the tables give the node a reference, and that has no symbol.
fn is_free_at(node: NodeId, scoping: &Scoping, tables: &NodeTables) -> bool
    ensures { result ≡ option_map_or (is_free scoping.now)
        (lookup (nat_eq node) tables.now.references) false }
{
    match tables.reference_of(node) {
        Some(reference) => reference.is_global_reference(scoping, tables),
        None => false,
    }
}

impl IsGlobalReference for AstKind<'_> {
    ghost is_global = { λ k t nodes. is_free_at t nodes k.node.now };

    fn is_global_reference(&self, scoping: &Scoping, tables: &NodeTables) -> bool {
        self.ty() == AstType::IdentifierReference && is_free_at(self.node_id(), scoping, tables)
    }
}

/// What may be a reference of a name to a global variable.
pub trait IsGlobalReferenceName {
    // Whether it is one of the name, by the tables.
    ghost is_global_name: { Self → Name → Tables → NodeEntries → Bool };

    /// Whether it is a reference of the name without symbol. A reference that the tables don't hold is none.
    fn is_global_reference_name(
        &self,
        name: Ident<'_>,
        scoping: &Scoping,
        tables: &NodeTables,
    ) -> bool
        ensures { result ≡ is_global_name self.now (name_of name.entry) scoping.now tables.now };
}

impl IsGlobalReferenceName for AstKind<'_> {
    ghost is_global_name = { λ k name t nodes. is_free_named name t nodes k.node.now };

    #[tactic(auto, using(semantic_syntax::proofs::SameTexts::texts))]
    fn is_global_reference_name(
        &self,
        name: Ident<'_>,
        scoping: &Scoping,
        tables: &NodeTables,
    ) -> bool {
        self.is_global_reference(scoping, tables) && self.text().as_str() == name.as_str()
    }
}
