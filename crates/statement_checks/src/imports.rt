//! Early errors of imported names.
ghost use Rattle.std.specs.Prelude.{◌≡◌, ◌<◌, length, IfOk};
ghost use Rattle.std.specs.Str.{chars};
ghost use Rattle.check_model.specs.Exports as rows;
ghost use Rattle.semantic_syntax.specs.Reading.{symbol_of};
ghost use Rattle.check_context.specs.Handed.{around, IsContext};
ghost use Rattle.check_context.specs.Tells.{Tells};
ghost use Rattle.statement_checks.specs.Bound.{root_symbols, rows_repeated, AreCounts};

use check_context::{CheckContext, tell};
use scoping::{Redeclaration, Scoping};
use semantic_diagnostics::Diagnostics;
use semantic_diagnostics::makers::redeclaration;
use semantic_syntax::{ScopeId, SymbolFlags, SymbolId};
use std::alloc::{AllocError, Global};

/// Whether a symbol is an import and a value too.
fn is_import_value(flags: SymbolFlags) -> bool
    ensures { result ≡ rows.is_import_value flags.bits }
{
    let values = SymbolFlags::Variable
        .union(SymbolFlags::Class)
        .union(SymbolFlags::Function);
    flags.intersects(SymbolFlags::Import) && flags.intersects(values)
}

/// Tells of the first declaration and the last one, if there are two or more.
#[tactic(auto, using(check_context::proofs::Telling::made, crate::proofs::Ends::ends))]
fn tell_declarations(
    alloc: Global,
    name: &str,
    entries: &[Redeclaration],
    out: &mut Diagnostics,
) -> Result<(), AllocError>
    ensures { Tells result (rows.first_and_last_rows (chars name.now) entries.now) out.old out.new }
{
    if entries.len() < 2 {
        return Ok(());
    }
    let first = entries[0].span;
    let last = entries[entries.len() - 1].span;
    tell(redeclaration(alloc, name, first, last), out)
}

/// Tells of a symbol that is an import and a value too, if it is declared again.
#[tactic(auto, using(check_context::proofs::Telling::telling))]
fn tell_import(
    alloc: Global,
    symbol: SymbolId,
    scoping: &Scoping,
    out: &mut Diagnostics,
) -> Result<(), AllocError>
    requires { symbol < length scoping.now.symbols }
    ensures { Tells result (rows.import_rows (symbol_of scoping.now symbol)) out.old out.new }
{
    if !is_import_value(scoping.symbol_flags(symbol)) {
        return Ok(());
    }
    let entries = scoping.symbol_redeclarations(symbol);
    tell_declarations(alloc, scoping.symbol_name(symbol), entries, out)
}

/// Tells of a symbol as often as `times` says.
#[tactic(auto, using(check_context::proofs::Telling::loop_telling))]
fn tell_repeatedly(
    alloc: Global,
    symbol: SymbolId,
    times: usize,
    scoping: &Scoping,
    out: &mut Diagnostics,
) -> Result<(), AllocError>
    requires { symbol < length scoping.now.symbols }
    ensures { Tells result (rows_repeated times (rows.import_rows (symbol_of scoping.now symbol)))
        out.old out.new }
{
    for turn in 0..times {
        let _turn = turn;
        tell_import(alloc, symbol, scoping, out)?;
    }
    Ok(())
}

/// How often the root scope binds each symbol.
fn counts_of_bound(alloc: Global, scoping: &Scoping) -> Result<Vec<usize>, AllocError>
    requires { 0 < length scoping.now.scopes }
    ensures { IfOk result (λ counts.
        AreCounts (root_symbols scoping.now) (length scoping.now.symbols) counts.items) }
{
    let mut counts = vec![in alloc; 0usize; scoping.symbols_len()]?;
    let bound = scoping.iter_bindings_in(scoping.root_scope_id());
    let _fits = bound.len();
    for symbol in bound {
        if symbol.index() < counts.len() {
            counts[symbol.index()] += 1;
        }
    }
    Ok(counts)
}

/// Tells of each symbol, as often as it is bound.
#[tactic(auto, using(check_context::proofs::Telling::loop_telling))]
fn tell_imports(
    alloc: Global,
    counts: &[usize],
    scoping: &Scoping,
    out: &mut Diagnostics,
) -> Result<(), AllocError>
    requires { AreCounts (root_symbols scoping.now) (length scoping.now.symbols) counts.now }
    ensures { Tells result (rows.bound_rows (root_symbols scoping.now) 0 scoping.now.symbols)
        out.old
        out.new }
{
    for number in 0..scoping.symbols_len() {
        let symbol = SymbolId::new(number as u32);
        tell_repeatedly(alloc, symbol, counts[number], scoping, out)?;
    }
    Ok(())
}

/// A module doesn't declare an import again, in JavaScript (ECMAScript 16.2.2.1, BoundNames; 16.2.1.1,
/// LexicallyDeclaredNames). The context is that of the program.
#[tactic(auto, using(check_context::proofs::Telling::telling))]
pub fn check_import_value_redeclarations<'a>(
    alloc: Global,
    ctx: &CheckContext<'a, '_>,
    out: &mut Diagnostics,
) -> Result<(), AllocError>
    requires { IsContext ctx.now }
    ensures { Tells result (rows.check_import_value_redeclarations (around ctx.now)) out.old
        out.new }
{
    if ctx.source_type.is_typescript() || !ctx.source_type.is_module() {
        return Ok(());
    }
    let counts = counts_of_bound(alloc, ctx.scoping)?;
    tell_imports(alloc, &counts, ctx.scoping, out)
}
