//! How many nodes of each kind there are.

ghost use Rattle.std.specs.Prelude.{◌≡◌, ◌+◌, ◌<◌, ◌^◌, ◌-◌, cond};
ghost use Rattle.semantic_kinds.specs.Kinds.{same_kind};
ghost use Rattle.semantic_kinds.specs.declared.kind.AstType.{AstType};
ghost use Rattle.semantic_tree.specs.KindCounts.{counted};

use semantic_kinds::AstType;

/// How many nodes there are of each kind, by its place in the order of kinds.
#[derive(Clone, Copy)]
pub struct KindCounts {
    counts: [u32; 190],
}

impl KindCounts {
    /// The counts of no nodes.
    pub fn new() -> KindCounts
        ensures { (k : AstType) → counted result k ≡ 0 }
    {
        KindCounts { counts: [0; 190] }
    }

    /// Counts one node of the kind.
    pub fn add(&mut self, kind: AstType)
        requires room { counted self.old kind < 2 ^ 32 - 1 }
        ensures added { (k : AstType)
            → counted self.new k ≡ counted self.old k + cond (same_kind k kind) 1 0 }
    {
        self.counts[kind as usize] += 1;
    }

    /// How many nodes of the kind there are.
    pub fn of(&self, kind: AstType) -> u32
        ensures { result ≡ counted self.now kind }
    {
        self.counts[kind as usize]
    }
}
