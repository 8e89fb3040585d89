//! Reads a program's tree from JSON, analyses it, and goes over what was found: scopes and the names that they bind, symbols
//! and their uses, free names, diagnostics with early errors. Then it edits the tables: a symbol gets another name, and a
//! reference goes. CALLING.md explains each step.
#![tactic(auto)]

ghost use Rattle.std.specs.Prelude.{◌<◌, length, IfSome};

pub mod one_node;
pub mod swapped;

use scoping::Scoping;
use semantic::{SemanticBuilder, SemanticBuilderReturn};
use semantic_diagnostics::{Diagnostic, Diagnostics};
use semantic_syntax::{Ident, ScopeId, SymbolId};
use semantic_tree::Program;
use std::alloc::AllocError;
use std::io;
use tree_json::read_program;

// The names that a scope binds.
fn print_scope(rt: &HostRuntime, scoping: &Scoping, scope: ScopeId) -> io::Result<()>
    requires { scope < length scoping.now.scopes }
{
    println!(rt; "scope {}", scope.index())?;
    for (name, symbol) in scoping.get_bindings(scope).iter() {
        println!(rt; "  binds {} to symbol {}", name.as_str(), symbol.index())?;
    }
    Ok(())
}

// Scopes have numbers in order of opening, from the root, 0, on.
fn print_scopes(rt: &HostRuntime, scoping: &Scoping) -> io::Result<()> {
    let count = scoping.scopes_len() as u32;
    for number in 0..count {
        print_scope(rt, scoping, ScopeId::new(number))?;
    }
    Ok(())
}

// A symbol, where it is declared first, in bytes, and the nodes that use it.
fn print_symbol(rt: &HostRuntime, scoping: &Scoping, symbol: SymbolId) -> io::Result<()>
    requires { symbol < length scoping.now.symbols }
{
    let name = scoping.symbol_name(symbol);
    let span = scoping.symbol_span(symbol);
    println!(rt;
        "symbol {} {name} at {}-{}",
        symbol.index(),
        span.start,
        span.end
    )?;
    for reference in scoping.get_resolved_references(symbol) {
        println!(rt; "  used at node {}", reference.node_id().index())?;
    }
    Ok(())
}

fn print_symbols(rt: &HostRuntime, scoping: &Scoping) -> io::Result<()> {
    let count = scoping.symbols_len() as u32;
    for number in 0..count {
        print_symbol(rt, scoping, SymbolId::new(number))?;
    }
    Ok(())
}

// The names that no scope around them binds, as globals are.
fn print_free_names(rt: &HostRuntime, scoping: &Scoping) -> io::Result<()> {
    for (name, references) in scoping.root_unresolved_references().iter() {
        println!(rt; "free {} {} times", name.as_str(), references.len())?;
    }
    Ok(())
}

// What is wrong, and where: the first place is the diagnostic's own, the others are related.
fn print_diagnostic(rt: &HostRuntime, diagnostic: &Diagnostic) -> io::Result<()> {
    println!(rt; "{}", diagnostic.message.as_str())?;
    for label in diagnostic.labels.as_slice() {
        println!(rt; "  at {}-{}", label.span.start, label.span.end)?;
    }
    Ok(())
}

// Redeclarations and early errors, in the order of a walk over the program.
fn print_diagnostics(rt: &HostRuntime, diagnostics: &Diagnostics) -> io::Result<()> {
    for diagnostic in diagnostics.iter() {
        print_diagnostic(rt, diagnostic)?;
    }
    Ok(())
}

// The symbol that the root binds to a name. Tables without a root bind nothing.
fn bound_at_root(scoping: &Scoping, name: &str) -> Option<SymbolId>
    ensures { IfSome result (λ symbol. (0 < length scoping.now.scopes)
        × (symbol < length scoping.now.symbols)) }
{
    if scoping.scopes_is_empty() {
        return None;
    }
    match scoping.get_root_binding(Ident::new(name)) {
        Some(symbol) if symbol.index() < scoping.symbols_len() => Some(symbol),
        _ => None,
    }
}

// Gives the root's binding of a name another name. Its references stay tied to the symbol.
fn rename_at_root(scoping: &mut Scoping, old: &str, new: &str) -> Result<(), AllocError> {
    match bound_at_root(scoping, old) {
        Some(symbol) => scoping.rename_symbol(symbol, ScopeId::new(0), Ident::new(new)),
        None => Ok(()),
    }
}

// Takes the first use of the root's binding of a name out of the tables, as after it was removed from the tree.
fn delete_first_use(scoping: &mut Scoping, name: &str) {
    let Some(symbol) = bound_at_root(scoping, name) else {
        return;
    };
    let first = scoping.get_resolved_reference_ids(symbol).first().copied();
    if let Some(reference) = first {
        scoping.delete_resolved_reference(symbol, reference);
    }
}

fn print_tables(rt: &HostRuntime, found: &SemanticBuilderReturn<'_>) -> io::Result<()> {
    print_scopes(rt, found.semantic.scoping())?;
    print_symbols(rt, found.semantic.scoping())?;
    print_free_names(rt, found.semantic.scoping())?;
    print_diagnostics(rt, &found.diagnostics)
}

// Edits the tables alone: the tree stays as it is.
fn edit(scoping: &mut Scoping) -> Result<(), AllocError> {
    rename_at_root(scoping, "a", "count")?;
    delete_first_use(scoping, "f");
    Ok(())
}

fn print_edited(rt: &HostRuntime, scoping: &mut Scoping) -> io::Result<()> {
    edit(scoping)?;
    println!(rt; "edited")?;
    print_symbols(rt, scoping)
}

// The analysis is taken apart at one place, so that it is proved once that all of it is let go.
fn print_analysis(rt: &HostRuntime, found: SemanticBuilderReturn<'_>) -> io::Result<()> {
    let printed = print_tables(rt, &found);
    let mut scoping = found.semantic.into_scoping();
    match printed {
        Ok(()) => print_edited(rt, &mut scoping),
        Err(error) => Err(error),
    }
}

fn print_program(rt: &HostRuntime, program: &Program) -> io::Result<()> {
    let builder = SemanticBuilder::new().with_check_syntax_error(true);
    match builder.build(rt.alloc(), program) {
        Ok(found) => print_analysis(rt, found),
        Err(error) => Err(error.into()),
    }
}

/// Prints what is found in a tree, which is given as JSON, or that the bytes are none.
pub fn print_tree(rt: &HostRuntime, bytes: &[u8]) -> io::Result<()> {
    match read_program(rt.alloc(), bytes) {
        Ok(program) => print_program(rt, &program),
        Err(_) => println!(rt; "no tree of a program"),
    }
}
