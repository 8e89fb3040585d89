//! The names of the symbols of which something is so.
ghost use Rattle.std.specs.Prelude.{◌≡◌, ◌<◌, length, IfOk};
ghost use Rattle.semantic_syntax.specs.Reading.{symbol_of};
ghost use Rattle.semantic_syntax.specs.Tables.{Name};
ghost use Rattle.tangle_model.specs.Tangled.{any_symbol};
ghost use Rattle.tangled_names.specs.Asked.{asked};
ghost use Rattle.tangled_names.specs.Stored.{has_name};

use crate::key_set::KeySet;
use crate::scope_questions::{
    is_bound_by, is_flagged, is_inner_variable, is_seen_by_eval, is_typed_variable, may_be_passed,
};
use scoping::Scoping;
use semantic_syntax::{SymbolFlags, SymbolId};
use std::alloc::{AllocError, Global};

/// What is asked of a symbol.
#[derive(Clone, Copy)]
pub enum Question<'a> {
    /// Whether a direct call of `eval` may name it.
    SeenByEval,
    /// Whether one of these nodes opens its scope.
    BoundBy(&'a KeySet<'a>),
    /// Whether a qualified name may pass it by.
    Passed,
    /// Whether it is a parameter, or a variable in a scope that isn't the root.
    InnerVariable,
    /// Whether it is a variable or parameter, and a type as well.
    TypedVariable,
    /// Whether it has one of these flags.
    Flagged(SymbolFlags),
}

/// Whether it is so of the symbol.
fn is_so(question: Question<'_>, scoping: &Scoping, symbol: SymbolId) -> bool
    requires { symbol < length scoping.now.symbols }
    ensures { result ≡ asked question.entry scoping.now (symbol_of scoping.now symbol) }
{
    match question {
        Question::SeenByEval => is_seen_by_eval(scoping, symbol),
        Question::BoundBy(openers) => is_bound_by(scoping, openers, symbol),
        Question::Passed => may_be_passed(scoping, symbol),
        Question::InnerVariable => is_inner_variable(scoping, symbol),
        Question::TypedVariable => is_typed_variable(scoping, symbol),
        Question::Flagged(flags) => is_flagged(scoping, symbol, flags),
    }
}

/// The names of the symbols of which it is so.
pub fn names_where<'a>(
    alloc: Global,
    scoping: &'a Scoping,
    question: Question<'_>,
) -> Result<KeySet<'a>, AllocError>
    ensures { IfOk result (λ names. (name : Name)
        → has_name names name
        ≡ any_symbol (asked question.entry scoping.now) scoping.now.symbols name) }
{
    let mut names = KeySet::new(alloc);
    let count = scoping.symbols_len() as u32;
    for number in 0..count {
        let symbol = SymbolId::new(number);
        let is = is_so(question, scoping, symbol);
        names.add_name_if(is, scoping.symbol_name(symbol))?;
    }
    Ok(names)
}
