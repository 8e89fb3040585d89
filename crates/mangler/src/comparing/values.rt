//! Whether small values are the same.
ghost use Rattle.std.specs.Prelude.{◌≡◌, bytes_eq};
ghost use Rattle.std.specs.Cmp.Lexicographic.{pointwise};
ghost use Rattle.std.specs.Option.{option_eq};
ghost use Rattle.std.specs.Str.{chars};
ghost use Rattle.mangle_model.specs.Tests.{same_number, same_span, same_declaration};

use semantic_syntax::{Redeclaration, ReferenceId, ScopeId, Span, SymbolId};

/// Whether the two texts have the same characters.
#[tactic(auto, using(semantic_syntax::proofs::SameTexts::same_texts))]
pub fn is_same_text(one: &str, other: &str) -> bool
    ensures { result ≡ bytes_eq (chars one.now) (chars other.now) }
{
    one == other
}

/// Whether both are the same scope, or none.
pub fn is_same_scope_id(one: Option<ScopeId>, other: Option<ScopeId>) -> bool
    ensures { result ≡ option_eq same_number one other }
{
    match (one, other) {
        (None, None) => true,
        (Some(one), Some(other)) => one == other,
        (_, _) => false,
    }
}

/// Whether both are the same symbol, or none.
pub fn is_same_symbol_id(one: Option<SymbolId>, other: Option<SymbolId>) -> bool
    ensures { result ≡ option_eq same_number one other }
{
    match (one, other) {
        (None, None) => true,
        (Some(one), Some(other)) => one == other,
        (_, _) => false,
    }
}

pub fn is_same_span(one: Span, other: Span) -> bool
    ensures { result ≡ same_span one other }
{
    one.start == other.start && one.end == other.end
}

/// Whether two declarations of symbols are the same.
fn is_same_declaration(one: &Redeclaration, other: &Redeclaration) -> bool
    ensures { result ≡ same_declaration one.now other.now }
{
    is_same_span(one.span, other.span)
        && one.declaration == other.declaration
        && one.flags == other.flags
}

/// Whether two lists of declarations are the same.
pub fn are_same_declarations(one: &[Redeclaration], other: &[Redeclaration]) -> bool
    ensures { result ≡ pointwise same_declaration one.now other.now }
{
    if one.len() != other.len() {
        return false;
    }
    for number in 0..one.len() {
        if !is_same_declaration(&one[number], &other[number]) {
            return false;
        }
    }
    true
}

/// Whether two lists of references are the same.
pub fn are_same_ids(one: &[ReferenceId], other: &[ReferenceId]) -> bool
    ensures { result ≡ bytes_eq one.now other.now }
{
    if one.len() != other.len() {
        return false;
    }
    for number in 0..one.len() {
        if one[number] != other[number] {
            return false;
        }
    }
    true
}
