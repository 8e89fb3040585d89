//! The tables as one line of text.
use scoping::Scoping;
use semantic_syntax::{ReferenceId, ScopeId, SymbolId};
use std::alloc::{AllocError, Global};
use std::fmt::Write;

/// The scope and those around it, as `1<0`.
fn write_outward(text: &mut String, scoping: &Scoping, scope: ScopeId) -> Result<(), AllocError> {
    if scope.index() >= scoping.scopes_len() {
        return Ok(());
    }
    let number = scope.index();
    write!(text, "{number}")?;
    let mut outward = scoping.scope_ancestors(scope);
    let _own = outward.next();
    for around in outward {
        let number = around.index();
        write!(text, "<{number}")?;
    }
    Ok(())
}

/// What the scope binds, as `[ a=0 b=1] `: the names and their symbols.
fn write_bound(text: &mut String, scoping: &Scoping, scope: ScopeId) -> Result<(), AllocError> {
    if scope.index() >= scoping.scopes_len() {
        return Ok(());
    }
    text.push_str("[")?;
    for (name, symbol) in scoping.get_bindings(scope).iter() {
        let name = name.as_str();
        let symbol = symbol.index();
        write!(text, " {name}={symbol}")?;
    }
    text.push_str("] ")
}

/// The references, as `[ 0 1] `.
fn write_references(text: &mut String, references: &[ReferenceId]) -> Result<(), AllocError> {
    text.push_str("[")?;
    for reference in references {
        let number = reference.index();
        write!(text, " {number}")?;
    }
    text.push_str("] ")
}

/// The symbol as `a@0 4-5 r[ 4 9] `: its name, its scope, its span, and where its redeclarations start.
fn write_symbol(text: &mut String, scoping: &Scoping, symbol: SymbolId) -> Result<(), AllocError> {
    if symbol.index() >= scoping.symbols_len() {
        return Ok(());
    }
    let name = scoping.symbol_name(symbol);
    let scope = scoping.symbol_scope_id(symbol).index();
    let span = scoping.symbol_span(symbol);
    let start = span.start;
    let end = span.end;
    write!(text, "{name}@{scope} {start}-{end} r[")?;
    for declaration in scoping.symbol_redeclarations(symbol) {
        let start = declaration.span.start;
        write!(text, " {start}")?;
    }
    text.push_str("] ")
}

/// The uses of the symbol, as `u[ 0 1] `.
fn write_uses(text: &mut String, scoping: &Scoping, symbol: SymbolId) -> Result<(), AllocError> {
    if symbol.index() >= scoping.symbols_len() {
        return Ok(());
    }
    text.push_str("u")?;
    write_references(text, scoping.get_resolved_reference_ids(symbol))
}

/// The free references as `z[ 0 1] ` for each name, and the symbols without side effects as `p[ 0]`.
fn write_rest(text: &mut String, scoping: &Scoping) -> Result<(), AllocError> {
    for (name, references) in scoping.root_unresolved_references().iter() {
        text.push_str(name.as_str())?;
        write_references(text, references)?;
    }
    text.push_str("p[")?;
    for symbol in scoping.no_side_effects() {
        let number = symbol.index();
        write!(text, " {number}")?;
    }
    text.push_str("]")
}

/// The tables in one line: scopes, symbols, free references, symbols without side effects.
pub fn text_of(alloc: Global, scoping: &Scoping) -> Result<String, AllocError> {
    let mut text = String::new(alloc);
    for scope in scoping.scope_descendants_from_root() {
        write_outward(&mut text, scoping, scope)?;
        write_bound(&mut text, scoping, scope)?;
    }
    for symbol in scoping.symbol_ids() {
        write_symbol(&mut text, scoping, symbol)?;
        write_uses(&mut text, scoping, symbol)?;
    }
    write_rest(&mut text, scoping)?;
    Ok(text)
}
