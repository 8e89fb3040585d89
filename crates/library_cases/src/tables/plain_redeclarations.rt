//! How many redeclarations stand before the first async function or generator.
use scoping::Scoping;
use semantic_syntax::{Ident, NodeId, ScopeId, Span, SymbolFlags, SymbolId};
use std::alloc::{AllocError, Global};
use std::test::Fail;

/// Declares a function at the place, the first one as symbol 0 and each other one again.
fn declare(scoping: &mut Scoping, start: u32, flags: SymbolFlags) -> Result<(), AllocError> {
    let span = Span::new(start, start);
    if scoping.symbols_is_empty() {
        scoping.create_symbol(span, Ident::new("f"), flags, ScopeId::new(0), NodeId::ROOT)?;
        return Ok(());
    }
    scoping.add_symbol_redeclaration(SymbolId::new(0), flags, NodeId::ROOT, span)
}

/// How many are plain before the first that isn't.
fn plain(scoping: &Scoping) -> usize {
    if scoping.symbols_is_empty() {
        return 0;
    }
    scoping.plain_redeclarations(SymbolId::new(0))
}

/// Drops the declarations at the place.
fn remove(scoping: &mut Scoping, start: u32) {
    if !scoping.symbols_is_empty() {
        scoping.remove_symbol_declaration(SymbolId::new(0), Span::new(start, start));
    }
}

/// How many are plain after the functions are declared at their places, those with `true` as async ones, and after those
/// at one place are dropped.
fn counted(
    scoping: &mut Scoping,
    functions: &[(u32, bool)],
    dropped: u32,
) -> Result<[usize; 2], AllocError> {
    let asynchronous = SymbolFlags::Function.union(SymbolFlags::AsyncOrGeneratorFunction);
    for (start, is_async) in functions {
        let flags = if *is_async {
            asynchronous
        } else {
            SymbolFlags::Function
        };
        declare(scoping, *start, flags)?;
    }
    let before = plain(scoping);
    remove(scoping, dropped);
    Ok([before, plain(scoping)])
}

fn told(alloc: Global, functions: &[(u32, bool)], dropped: u32) -> Result<[usize; 2], AllocError> {
    let mut scoping = Scoping::new(alloc);
    let told = counted(&mut scoping, functions, dropped);
    drop(scoping);
    told
}

#[test]
fn functions_before_an_async_one_are_counted(rt: HostRuntime) -> Result<(), Fail> {
    let alloc = rt.alloc();
    let three = [(0, false), (2, false), (4, false)];
    let one_async = [(0, false), (2, false), (4, true), (6, false)];
    let two_async = [(0, false), (2, true), (4, false), (6, true)];
    assert_eq!(rt; told(alloc, &[(0, false)], 0)?, [0, 0]);
    assert_eq!(rt; told(alloc, &three, 2)?, [3, 2]);
    assert_eq!(rt; told(alloc, &one_async, 4)?, [2, 3]);
    assert_eq!(rt; told(alloc, &two_async, 2)?, [1, 2]);
    Ok(())
}
