//! Which symbols a reference may be tied to, and the flags that it has then (TypeScript's `SymbolFlags.Value`, `Type`
//! and `Namespace` as meanings of `resolveName`).
ghost use Rattle.std.specs.Prelude.{◌≡◌};
ghost use Rattle.semantic_syntax.specs.Usable.{is_usable, settled as settled_flags};

use semantic_syntax::{ReferenceFlags, SymbolFlags};

/// Whether a reference in the way may be tied to a symbol with the flags: one of the way's kinds, by value, by
/// type or by the type of a value, has to fit the symbol, and so has a namespace where the way asks for one
/// and not for the type of a value.
pub fn usable(way: ReferenceFlags, flags: SymbolFlags) -> bool
    ensures { result ≡ is_usable way.bits flags.bits }
{
    let fits = (way.is_value() && flags.can_be_referenced_by_value())
        || (way.is_type() && flags.can_be_referenced_by_type())
        || (way.is_value_as_type() && flags.can_be_referenced_by_value_as_type());
    let asks_for_namespace = way.is_namespace() && !way.is_value_as_type();
    fits && (!asks_for_namespace || flags.can_be_referenced_as_namespace())
}

/// The flags of a reference in the way, once it is tied to a symbol with the flags: the way without `Type`
/// where the symbol is used by value or a namespace is read, else `Type` alone.
pub fn settled(way: ReferenceFlags, flags: SymbolFlags) -> ReferenceFlags
    ensures { result.bits ≡ settled_flags way.bits flags.bits }
{
    if way.is_value() && flags.can_be_referenced_by_value() {
        return way.difference(ReferenceFlags::TypeFlag);
    }
    if way.is_namespace() && way.is_read() {
        return way.difference(ReferenceFlags::TypeFlag);
    }
    ReferenceFlags::TypeFlag
}
