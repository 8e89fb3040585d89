//! The look-up of one reference, scope by scope (ECMAScript 9.4.2, ResolveBinding, and 9.1.2.1,
//! GetIdentifierReference; TypeScript's `resolveName`).
ghost use Rattle.std.specs.Prelude.{◌≡◌, ◌<◌, All};
ghost use Rattle.std.specs.Option.{option_map};
ghost use Rattle.std.specs.Str.{chars};
ghost use Rattle.semantic_syntax.specs.Counts.{raised};
ghost use Rattle.semantic_syntax.specs.Source.{Source, chain};
ghost use Rattle.semantic_syntax.specs.Members.{contains};
ghost use Rattle.semantic_syntax.specs.Lookup.{is_arguments, fits, ends_after};
ghost use Rattle.semantic_syntax.specs.Outcome.{answered, lookup_along, probes_along};
ghost use Rattle.scoping_rows.specs.Names.{name_of};
ghost use Rattle.resolver.specs.Terms.{outcome_of, pending_of, is_arguments_name, MayBeArguments, IsTied, ends_at, scopes_from};

use crate::outcomes::Outcome;
use crate::pending::UnresolvedReference;
use crate::rules::usable;
use scoping::{BindingSource, NamePlace};
use semantic_syntax::{Ident, ReferenceFlags, ScopeFlags, ScopeId, Steps, SymbolFlags, SymbolId};

// Whether the text is `arguments`. Few names are asked it, so it stands out of line.
#[inline(never)]
fn is_spelled_arguments(text: &str) -> bool
    ensures { result ≡ is_arguments_name (chars text.now) }
{
    text == "arguments"
}

// Whether the name is `arguments`. Its first letter is asked first, by which most names differ.
fn is_named_arguments(name: Ident<'_>) -> bool
    ensures { result ≡ is_arguments_name (chars name.entry.text.now) }
{
    let text = name.as_str();
    if text.is_empty() {
        return false;
    }
    text.as_bytes()[0] == b'a' && is_spelled_arguments(text)
}

// Whether one of the references is named `arguments`. It reads the first letter of each name and does nothing else, so
// the processor fetches many names at once, where a look-up would wait for each: since the walk saw them, they have
// left its caches.
pub(crate) fn any_named_arguments(batch: &[UnresolvedReference<'_>]) -> bool
    ensures { All (λ u. MayBeArguments (name_of u.name) result) batch.now }
{
    for entry in batch {
        if is_named_arguments(entry.name) {
            return true;
        }
    }
    false
}

// Whether the reference means the arguments of the function around it (ECMAScript 10.4.4, Arguments Exotic Objects). Its
// name is read only where it may be `arguments`.
fn means_arguments(name: Ident<'_>, may_be: bool, way: ReferenceFlags) -> bool
    requires { MayBeArguments (chars name.text.now) may_be }
    ensures { result ≡ is_arguments (chars name.entry.text.now) way.bits }
{
    may_be && is_named_arguments(name) && (way.is_value() || way.is_value_as_type())
}

// Whether a symbol with the flags fits the reference. `arguments` is never the own name of a function expression,
// which binds its arguments within (ECMAScript 10.2.11, FunctionDeclarationInstantiation). Most symbols are no such
// names, so the reference's name is read last.
fn fits_symbol(name: Ident<'_>, may_be: bool, way: ReferenceFlags, flags: SymbolFlags) -> bool
    requires { MayBeArguments (chars name.text.now) may_be }
    ensures { result ≡ fits (chars name.entry.text.now) way.bits flags.bits }
{
    usable(way, flags)
        && !(flags.intersects(SymbolFlags::FunctionExpression)
            && means_arguments(name, may_be, way))
}

// The symbol that the scope ties the reference to, if any.
fn tied_in<L, B: BindingSource<L>>(
    scope: ScopeId,
    name: Ident<'_>,
    may_be: bool,
    place: &NamePlace<'_, B::Table>,
    way: ReferenceFlags,
    source: &B,
    steps: &mut Steps<L>,
) -> Option<SymbolId>
    requires scope { scope < (B.meaning source.now).scopes }
    requires may_be { MayBeArguments (chars name.text.now) may_be }
    requires place { B.is_place source.now
        (chars name.text.now) place.now.table.now place.now.number }
    ensures tie { IsTied (B.meaning source.now) (chars name.entry.text.now) way.bits scope result }
    ensures step { steps.new ≡ raised steps.old 1 }
{
    let symbol = source.probe_at(scope, name, place, steps)?;
    if fits_symbol(name, may_be, way, source.flags_of_symbol(symbol)) {
        Some(symbol)
    } else {
        None
    }
}

// Whether the look-up ends as free after the scope: `arguments` isn't looked up past a function that is no arrow,
// since each such one binds it (ECMAScript 10.2.11, FunctionDeclarationInstantiation). The name is read last.
fn is_barrier<L, B: BindingSource<L>>(
    scope: ScopeId,
    name: Ident<'_>,
    may_be: bool,
    way: ReferenceFlags,
    source: &B,
) -> bool
    requires scope { scope < (B.meaning source.now).scopes }
    requires may_be { MayBeArguments (chars name.text.now) may_be }
    ensures { result ≡ ends_after (chars name.entry.text.now) way.bits
        ((B.meaning source.now).scope_flags scope) }
{
    let flags = source.flags_of_scope(scope);
    flags.is_function() && !flags.is_arrow() && means_arguments(name, may_be, way)
}

// Whether the scope is the last one to be asked.
fn is_last(scope: ScopeId, last: &Option<ScopeId>) -> bool
    ensures { result ≡ ends_at last.now scope }
{
    match last {
        Some(end) => scope == *end,
        None => false,
    }
}

// What the scopes from the look-up scope to the last one give (ECMAScript 9.1.2.1, GetIdentifierReference): the
// symbol, or that it is free, or nothing. Without a last one it is the first scope outward that has no parent. `may_be`
// tells whether the name may be `arguments`.
pub fn look_up<L, B: BindingSource<L>>(
    pending: &UnresolvedReference<'_>,
    may_be: bool,
    last: Option<ScopeId>,
    source: &B,
    steps: &mut Steps<L>,
) -> Option<Outcome>
    requires scope { pending.now.lookup_scope_id < (B.meaning source.now).scopes }
    requires reference { pending.now.reference_id < (B.meaning source.now).references }
    requires may_be { MayBeArguments (chars pending.now.name.text.now) may_be }
    ensures answer { option_map outcome_of result
        ≡ answered (lookup_along (B.meaning source.now) (pending_of pending.now)
        (scopes_from (B.meaning source.now) last pending.now.lookup_scope_id)) }
    ensures cost { steps.new ≡ raised steps.old
        (probes_along (B.meaning source.now) (pending_of pending.now)
        (scopes_from (B.meaning source.now) last pending.now.lookup_scope_id)) }
{
    let way = source.way(pending.reference_id);
    let place = source.place_of(pending.name);
    let mut scope = pending.lookup_scope_id;
    loop {
        if let Some(symbol) = tied_in(scope, pending.name, may_be, &place, way, source, steps) {
            return Some(Outcome::Tied(symbol));
        }
        if is_barrier(scope, pending.name, may_be, way, source) {
            return Some(Outcome::Free);
        }
        if is_last(scope, &last) {
            return None;
        }
        match source.parent(scope) {
            Some(parent) => scope = parent,
            None => return None,
        }
    }
}

// Whether the scope `inner` is the scope or below it.
pub fn is_within<L, B: BindingSource<L>>(inner: ScopeId, scope: ScopeId, source: &B) -> bool
    requires { inner < (B.meaning source.now).scopes }
    ensures { result ≡ contains (chain (B.meaning source.now) inner) scope }
{
    let mut at = inner;
    loop {
        if at == scope {
            return true;
        }
        match source.parent(at) {
            Some(parent) => at = parent,
            None => return false,
        }
    }
}
