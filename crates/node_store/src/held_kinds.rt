//! Which kinds of nodes a store has.
ghost use Rattle.std.specs.Prelude.{◌≡◌};
ghost use Rattle.std.specs.List.{list_any, list_all};
ghost use Rattle.semantic_kinds.specs.declared.kind.AstType.{AstType};
ghost use Rattle.node_store.specs.KindSets.{set_has_kind, kinds_in};
ghost use Rattle.node_store.specs.HeldKinds.{has_kind};

use crate::bitset::AstTypesBitset;
use crate::nodes::AstNodes;
use semantic_kinds::kind::AstType;

impl<'a> AstNodes<'a> {
    /// Whether some node has this kind.
    pub fn contains(&self, ty: AstType) -> bool
        ensures { result ≡ has_kind self.now ty }
    {
        for node in self {
            if ty == node.kind().ty() {
                return true;
            }
        }
        false
    }

    /// Whether some node has a kind of the set.
    pub fn contains_any(&self, set: &AstTypesBitset) -> bool
        ensures { result ≡ list_any (λ s. set_has_kind set.now s.node.kind) self.now.nodes }
    {
        for node in self {
            if set.has(node.kind().ty()) {
                return true;
            }
        }
        false
    }

    /// Whether each kind of the set is that of some node.
    #[tactic(auto, using(crate::proofs::KindBits::all_alike))]
    pub fn contains_all(&self, set: &AstTypesBitset) -> bool
        ensures { result ≡ list_all (has_kind self.now) (kinds_in set.now) }
    {
        self.kinds().contains(set)
    }

    /// The kinds of all nodes.
    fn kinds(&self) -> AstTypesBitset
        ensures { (k : AstType) → set_has_kind result k ≡ has_kind self.now k }
    {
        let mut kinds = AstTypesBitset::new();
        for node in self {
            kinds.set(node.kind().ty());
        }
        kinds
    }
}
