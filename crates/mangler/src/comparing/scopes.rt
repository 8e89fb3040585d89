//! Whether scopes are the same, and whether they bind the same symbols under the new names.
ghost use Rattle.std.specs.Prelude.{◌≡◌, ◌<◌, length, map, [], slice_index_or};
ghost use Rattle.std.specs.Cmp.Lexicographic.{pointwise};
ghost use Rattle.std.specs.Str.{chars};
ghost use Rattle.semantic_syntax.specs.Reading.{scope_of, bindings_of};
ghost use Rattle.mangle_model.specs.Assignment.{assignment_of, name_or};
ghost use Rattle.mangle_model.specs.Alike.{renamed_binding};
ghost use Rattle.mangle_model.specs.Tests.{same_binding, same_scope};
ghost use Rattle.scoping_rows.specs.Names.{name_of};

use super::values::{is_same_scope_id, is_same_text};
use mangle_names::NewNames;
use scoping::Scoping;
use semantic_syntax::{Ident, ScopeId, SymbolId};

/// Whether the scope is the same in both.
fn is_same_scope(one: &Scoping, other: &Scoping, scope: ScopeId) -> bool
    requires one { scope < length one.now.scopes }
    requires other { scope < length other.now.scopes }
    ensures { result ≡ same_scope (scope_of other.now scope) (scope_of one.now scope) }
{
    is_same_scope_id(other.scope_parent_id(scope), one.scope_parent_id(scope))
        && other.get_node_id(scope) == one.get_node_id(scope)
        && other.scope_flags(scope) == one.scope_flags(scope)
}

/// Whether the scopes are the same.
pub fn are_same_scopes(one: &Scoping, other: &Scoping) -> bool
    ensures { result ≡ pointwise same_scope other.now.scopes one.now.scopes }
{
    if other.scopes_len() != one.scopes_len() {
        return false;
    }
    for number in 0..(one.scopes_len() as u32) {
        if !is_same_scope(one, other, ScopeId::new(number)) {
            return false;
        }
    }
    true
}

/// The new name of a symbol, else the old one.
fn name_or<'a>(names: &'a NewNames, symbol: SymbolId, old: Ident<'a>) -> &'a str
    ensures { chars result.now ≡ name_or (assignment_of names.now symbol) (name_of old.entry) }
{
    match names.get(symbol) {
        Some(name) => name,
        None => old.as_str(),
    }
}

/// Whether the scope binds the same symbols, in the same order, by their new names.
fn binds_the_same(names: &NewNames, one: &Scoping, other: &Scoping, scope: ScopeId) -> bool
    requires one { scope < length one.now.scopes }
    requires other { scope < length other.now.scopes }
    ensures { result ≡ pointwise same_binding (bindings_of other.now scope)
        (map (renamed_binding (assignment_of names.now)) (bindings_of one.now scope)) }
{
    let mut theirs = other.get_bindings(scope).iter();
    for (name, symbol) in one.get_bindings(scope).iter() {
        let Some((found, bound)) = theirs.next() else {
            return false;
        };
        if bound != symbol || !is_same_text(found.as_str(), name_or(names, symbol, name)) {
            return false;
        }
    }
    theirs.next().is_none()
}

/// Whether all scopes bind the same symbols, by their new names.
pub fn are_same_bindings(names: &NewNames, one: &Scoping, other: &Scoping) -> bool
    ensures { result ≡ pointwise (pointwise same_binding) other.now.bindings
        (map (map (renamed_binding (assignment_of names.now))) one.now.bindings) }
{
    one.attest();
    other.attest();
    if other.scopes_len() != one.scopes_len() {
        return false;
    }
    for number in 0..(one.scopes_len() as u32) {
        if !binds_the_same(names, one, other, ScopeId::new(number)) {
            return false;
        }
    }
    true
}
