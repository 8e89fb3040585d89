//! Sets of kinds of nodes.
ghost use Rattle.std.specs.Prelude.{◌≡◌, ◌||◌, false, map};
ghost use Rattle.std.specs.List.{list_any, list_all};
ghost use Rattle.std.specs.List.Sorted.{IsStrictlyIncreasing};
ghost use Rattle.std.specs.Iterator.{YieldsFirst, item_count};
ghost use Rattle.semantic_kinds.specs.declared.kind.AstType.{AstType};
ghost use Rattle.semantic_kinds.specs.Kinds.{same_kind, kind_number};
ghost use Rattle.node_store.specs.KindSets.{set_has_kind, kinds_in, kinds_left};

use semantic_kinds::kind::AstType;

/// A set of kinds: for each kind, by its place in the order of kinds, whether it is set.
#[derive(Clone, Copy)]
pub struct AstTypesBitset {
    bits: [bool; 190],
}

impl AstTypesBitset {
    /// The set without kinds.
    pub fn new() -> AstTypesBitset
        ensures { (k : AstType) → set_has_kind result k ≡ false }
    {
        AstTypesBitset { bits: [false; 190] }
    }

    /// The set of these kinds.
    pub fn from_types(types: &[AstType]) -> AstTypesBitset
        ensures { (k : AstType) → set_has_kind result k ≡ list_any (same_kind k) types.now }
    {
        let mut made = AstTypesBitset::new();
        for ty in types {
            made.set(*ty);
        }
        made
    }

    /// Whether a kind is set.
    pub fn has(&self, ty: AstType) -> bool
        ensures { result ≡ set_has_kind self.now ty }
    {
        self.bits[ty as usize]
    }

    /// Adds the kind to the set.
    pub fn set(&mut self, ty: AstType)
        ensures { (k : AstType)
            → set_has_kind self.new k ≡ (set_has_kind self.old k || same_kind k ty) }
    {
        self.bits[ty as usize] = true;
    }

    /// Whether both sets have some kind.
    pub fn intersects(&self, other: &AstTypesBitset) -> bool
        ensures { result ≡ list_any (set_has_kind other.now) (kinds_in self.now) }
    {
        for ty in self {
            if other.has(ty) {
                return true;
            }
        }
        false
    }

    /// Whether this set has each kind of the other.
    pub fn contains(&self, other: &AstTypesBitset) -> bool
        ensures { result ≡ list_all (set_has_kind self.now) (kinds_in other.now) }
    {
        for ty in other {
            if !self.has(ty) {
                return false;
            }
        }
        true
    }

    /// The kinds that are set, in their order, each once.
    #[tactic(auto, using(crate::proofs::KindOrder::kinds_rise))]
    pub fn iter(&self) -> AstTypesIter<'_>
        ensures kinds { kinds_left result ≡ kinds_in self.now }
        ensures rising { IsStrictlyIncreasing (map kind_number (kinds_left result)) }
    {
        AstTypesIter {
            set: self,
            left: &AstType::ALL,
        }
    }
}

impl Default for AstTypesBitset {
    fn default() -> AstTypesBitset
        ensures { (k : AstType) → set_has_kind result k ≡ false }
    {
        AstTypesBitset::new()
    }
}

impl<'s> IntoIterator for &'s AstTypesBitset {
    type Item = AstType;

    type IntoIter = AstTypesIter<'s>;

    ghost into_iter_gives = { λ s it. kinds_left it ≡ kinds_in s.now };

    fn into_iter(self) -> AstTypesIter<'s> {
        self.iter()
    }
}

/// The kinds of a set that are left.
#[derive(Drop)]
pub struct AstTypesIter<'s> {
    set: &'s AstTypesBitset,
    left: &'static [AstType],
}

impl<'s> Iterator for AstTypesIter<'s> {
    type Item = AstType;

    ghost next_gives = { YieldsFirst kinds_left };

    ghost remaining = { item_count kinds_left };

    fn next(&mut self) -> Option<AstType> {
        while let Some((ty, others)) = self.left.split_first() {
            self.left = others;
            if self.set.has(*ty) {
                return Some(*ty);
            }
        }
        None
    }
}
