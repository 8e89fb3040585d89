//! Questions about a symbol and its scope.
ghost use Rattle.std.specs.Prelude.{◌≡◌, ◌<◌, length};
ghost use Rattle.semantic_syntax.specs.Reading.{scope_flags, scope_of, symbol_of};
ghost use Rattle.tangle_model.specs.Repeated.{key_stands};
ghost use Rattle.tangle_model.specs.Tangled.{is_seen_by_eval, is_bare_namespace, is_inner_alias, may_be_passed, is_inner_variable, is_typed_variable, is_flagged};
ghost use Rattle.tangled_names.specs.Stored.{node_key};

use crate::key_set::KeySet;
use scoping::Scoping;
use semantic_syntax::{NodeId, ScopeFlags, ScopeId, SymbolFlags, SymbolId};

/// The flags of the scope, in the types of its tables; none where they don't hold it.
#[tactic(auto, using(crate::proofs::Beyond::scopes))]
fn flags_of(scoping: &Scoping, scope: ScopeId) -> ScopeFlags
    ensures { result.bits ≡ scope_flags scoping.now scope }
{
    if scope.index() < scoping.scopes_len() {
        scoping.scope_flags(scope)
    } else {
        ScopeFlags::empty()
    }
}

/// The node that opens the scope; the root where the tables don't hold it.
#[tactic(auto, using(crate::proofs::Beyond::scopes))]
fn opener_of(scoping: &Scoping, scope: ScopeId) -> NodeId
    ensures { result ≡ (scope_of scoping.now scope).node }
{
    if scope.index() < scoping.scopes_len() {
        scoping.get_node_id(scope)
    } else {
        NodeId::new(0)
    }
}

/// Whether a direct call of `eval` may name the symbol (ECMAScript 19.2.1.1).
pub fn is_seen_by_eval(scoping: &Scoping, symbol: SymbolId) -> bool
    requires { symbol < length scoping.now.symbols }
    ensures { result ≡ is_seen_by_eval scoping.now (symbol_of scoping.now symbol) }
{
    flags_of(scoping, scoping.symbol_scope_id(symbol)).contains_direct_eval()
}

/// Whether one of the nodes opens the scope of the symbol.
pub fn is_bound_by(scoping: &Scoping, openers: &KeySet<'_>, symbol: SymbolId) -> bool
    requires { symbol < length scoping.now.symbols }
    ensures { result ≡ key_stands (node_key
        (scope_of scoping.now (symbol_of scoping.now symbol).scope).node) openers.now }
{
    openers.has_node(opener_of(scoping, scoping.symbol_scope_id(symbol)))
}

/// Whether the symbol is a namespace and no type besides.
fn is_bare_namespace(scoping: &Scoping, symbol: SymbolId) -> bool
    requires { symbol < length scoping.now.symbols }
    ensures { result ≡ is_bare_namespace (symbol_of scoping.now symbol) }
{
    let flags = scoping.symbol_flags(symbol);
    (flags.intersects(SymbolFlags::ValueModule) || flags.intersects(SymbolFlags::NamespaceModule))
        && !flags.intersects(SymbolFlags::TypeFlag)
}

/// Whether the symbol is an alias in a scope that isn't the root.
fn is_inner_alias(scoping: &Scoping, symbol: SymbolId) -> bool
    requires { symbol < length scoping.now.symbols }
    ensures { result ≡ is_inner_alias (symbol_of scoping.now symbol) }
{
    let flags = scoping.symbol_flags(symbol);
    (flags.intersects(SymbolFlags::Import) || flags.intersects(SymbolFlags::TypeImport))
        && scoping.symbol_scope_id(symbol).index() != 0
}

/// Whether a qualified name may pass the symbol by, in the tables or in TypeScript.
pub fn may_be_passed(scoping: &Scoping, symbol: SymbolId) -> bool
    requires { symbol < length scoping.now.symbols }
    ensures { result ≡ may_be_passed (symbol_of scoping.now symbol) }
{
    is_bare_namespace(scoping, symbol) || is_inner_alias(scoping, symbol)
}

/// Whether the symbol is a parameter, or a variable in a scope that isn't the root.
pub fn is_inner_variable(scoping: &Scoping, symbol: SymbolId) -> bool
    requires { symbol < length scoping.now.symbols }
    ensures { result ≡ is_inner_variable (symbol_of scoping.now symbol) }
{
    scoping
        .symbol_flags(symbol)
        .intersects(SymbolFlags::FunctionScopedVariable)
        && scoping.symbol_scope_id(symbol).index() != 0
}

/// Whether the symbol is a variable or parameter, and a type as well.
pub fn is_typed_variable(scoping: &Scoping, symbol: SymbolId) -> bool
    requires { symbol < length scoping.now.symbols }
    ensures { result ≡ is_typed_variable (symbol_of scoping.now symbol) }
{
    let flags = scoping.symbol_flags(symbol);
    flags.intersects(SymbolFlags::FunctionScopedVariable) && flags.intersects(SymbolFlags::TypeFlag)
}

/// Whether the symbol has one of the flags.
pub fn is_flagged(scoping: &Scoping, symbol: SymbolId, flags: SymbolFlags) -> bool
    requires { symbol < length scoping.now.symbols }
    ensures { result ≡ is_flagged flags.bits (symbol_of scoping.now symbol) }
{
    scoping.symbol_flags(symbol).intersects(flags)
}
