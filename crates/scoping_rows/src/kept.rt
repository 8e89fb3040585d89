//! What is kept of lists as references and symbols are dropped.
ghost use Rattle.std.specs.Prelude.{◌≡◌};
ghost use Rattle.scoping_rows.specs.Kept.{is_unmarked, is_used_by_value, without_type_uses, is_of_types, goes_with_types, stays};

use crate::symbol_row::SymbolRow;
use semantic_syntax::{Reference, ReferenceFlags, ReferenceId, SymbolFlags, SymbolId};

/// Whether the reference is not marked. One past the end is not.
pub(crate) fn is_unmarked(excluded: &[bool], reference: ReferenceId) -> bool
    ensures { result ≡ is_unmarked excluded.now reference }
{
    match excluded.get(reference.index()) {
        Some(marked) => !*marked,
        None => true,
    }
}

/// Whether a use in the way is of types alone: as a type and not by value, or of the type of a value.
fn is_of_types(way: ReferenceFlags) -> bool
    ensures { result ≡ is_of_types way.bits }
{
    way.is_type() && !way.is_value() || way.is_value_as_type()
}

/// Whether the reference is not one of types alone.
pub(crate) fn is_used_by_value(references: &[Reference], reference: ReferenceId) -> bool
    ensures { result ≡ is_used_by_value references.now reference }
{
    match references.get(reference.index()) {
        Some(used) => !is_of_types(used.flags),
        None => true,
    }
}

/// Whether a symbol with the flags goes with the types.
fn goes_with_types(flags: SymbolFlags) -> bool
    ensures { result ≡ goes_with_types flags.bits }
{
    flags.intersects(SymbolFlags::TypeAlias)
        || flags.intersects(SymbolFlags::Interface)
        || flags.intersects(SymbolFlags::TypeParameter)
        || flags.intersects(SymbolFlags::EnumMember)
}

/// Whether the symbol stays as types go.
pub(crate) fn stays(rows: &[SymbolRow], symbol: SymbolId) -> bool
    ensures { result ≡ stays rows.now symbol }
{
    match rows.get(symbol.index()) {
        Some(row) => !goes_with_types(row.flags()),
        None => true,
    }
}

/// Drops the references of types alone.
pub(crate) fn retain_values(list: &mut Vec<ReferenceId>, references: &[Reference])
    ensures { list.new.items ≡ without_type_uses references.now list.old.items }
{
    list.retain(|reference| is_used_by_value(references, *reference));
}
