//! Whether symbols are the same but for their new names.
ghost use Rattle.std.specs.Prelude.{◌≡◌, ◌<◌, length};
ghost use Rattle.std.specs.Cmp.Lexicographic.{pointwise};
ghost use Rattle.std.specs.Option.{option_eq};
ghost use Rattle.std.specs.Str.{chars};
ghost use Rattle.semantic_syntax.specs.Reading.{symbol_of};
ghost use Rattle.semantic_model.specs.Moment.{ListsBeginWithOwn};
ghost use Rattle.mangle_model.specs.Alike.{renamed_symbols};
ghost use Rattle.mangle_model.specs.Assignment.{assignment_of, name_or};
ghost use Rattle.mangle_model.specs.Tests.{same_declaration, same_symbol};

use super::values::{are_same_declarations, is_same_span, is_same_text};
use mangle_names::NewNames;
use scoping::Scoping;
use semantic_syntax::SymbolId;

/// The name that the symbol has then.
fn name_then<'a>(names: &'a NewNames, scoping: &'a Scoping, symbol: SymbolId) -> &'a str
    requires { symbol < length scoping.now.symbols }
    ensures { chars result.now ≡ name_or (assignment_of names.now symbol)
        (symbol_of scoping.now symbol).name }
{
    match names.get(symbol) {
        Some(name) => name,
        None => scoping.symbol_name(symbol),
    }
}

/// Whether the symbol has the same redeclarations in both.
fn has_same_redeclarations(one: &Scoping, other: &Scoping, symbol: SymbolId) -> bool
    requires one { symbol < length one.now.symbols }
    requires other { symbol < length other.now.symbols }
    requires own { ListsBeginWithOwn one.now }
    requires others { ListsBeginWithOwn other.now }
    ensures { result ≡ option_eq (pointwise same_declaration)
        (symbol_of other.now symbol).redeclarations (symbol_of one.now symbol).redeclarations }
{
    are_same_declarations(
        other.symbol_redeclarations(symbol),
        one.symbol_redeclarations(symbol),
    )
}

/// Whether the symbol is the same in both, but for its new name.
fn is_same_symbol(names: &NewNames, one: &Scoping, other: &Scoping, symbol: SymbolId) -> bool
    requires one { symbol < length one.now.symbols }
    requires other { symbol < length other.now.symbols }
    requires own { ListsBeginWithOwn one.now }
    requires others { ListsBeginWithOwn other.now }
    ensures { result ≡ same_symbol (symbol_of other.now symbol)
        (record (symbol_of one.now symbol) {
          name = name_or (assignment_of names.now symbol) (symbol_of one.now symbol).name;
        }) }
{
    is_same_text(other.symbol_name(symbol), name_then(names, one, symbol))
        && is_same_span(other.symbol_span(symbol), one.symbol_span(symbol))
        && other.symbol_flags(symbol) == one.symbol_flags(symbol)
        && other.symbol_scope_id(symbol) == one.symbol_scope_id(symbol)
        && other.symbol_declaration(symbol) == one.symbol_declaration(symbol)
        && has_same_redeclarations(one, other, symbol)
}

/// Whether the symbols are the same, but for their new names.
pub fn are_same_symbols(names: &NewNames, one: &Scoping, other: &Scoping) -> bool
    requires own { ListsBeginWithOwn one.now }
    requires others { ListsBeginWithOwn other.now }
    ensures { result ≡ pointwise same_symbol other.now.symbols
        (renamed_symbols (assignment_of names.now) 0 one.now.symbols) }
{
    if other.symbols_len() != one.symbols_len() {
        return false;
    }
    for number in 0..(one.symbols_len() as u32) {
        if !is_same_symbol(names, one, other, SymbolId::new(number)) {
            return false;
        }
    }
    true
}
