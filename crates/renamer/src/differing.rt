//! The first node at which two analyses differ.

ghost use Rattle.std.specs.Prelude.{◌≡◌, ◌<◌, ◌^◌, ◌-◌};
ghost use Rattle.renamer.specs.Told.{told_by};
ghost use Rattle.rename_model.specs.Same.{same_option, is_same_at, first_difference};

use crate::analysed::Analysed;
use semantic_syntax::{NodeId, SymbolId};

/// Whether both are the same symbol, or none.
fn is_same(one: Option<SymbolId>, other: Option<SymbolId>) -> bool
    ensures { result ≡ same_option one other }
{
    match (one, other) {
        (None, None) => true,
        (Some(one), Some(other)) => one == other,
        (_, _) => false,
    }
}

/// Whether the node declares the same symbol in both, and is tied to the same.
fn is_same_at(one: &Analysed<'_>, other: &Analysed<'_>, node: NodeId) -> bool
    ensures { result ≡ is_same_at (told_by one.now) (told_by other.now) node }
{
    is_same(one.symbol_at(node), other.symbol_at(node))
        && is_same(one.tied_at(node), other.tied_at(node))
}

/// The first of so many nodes that declares another symbol in the one than in the other, or is tied to another.
pub fn first_difference(one: &Analysed<'_>, other: &Analysed<'_>, count: u32) -> Option<NodeId>
    ensures { result ≡ first_difference (told_by one.now) (told_by other.now) 0 count }
{
    for number in 0..count {
        let node = NodeId::new(number);
        if !is_same_at(one, other, node) {
            return Some(node);
        }
    }
    None
}
