//! Which symbols may change.
ghost use Rattle.std.specs.Prelude.{◌≡◌, ◌<◌, ℕ, Some, bytes_eq, length, nat_eq, slice_get, IfOk};
ghost use Rattle.std.specs.HashSet.{contains as has_key};
ghost use Rattle.std.specs.List.{list_any};
ghost use Rattle.std.specs.Str.{chars};
ghost use Rattle.semantic_syntax.specs.Reading.{symbol_of};
ghost use Rattle.semantic_model.specs.Analysis.{analysis_of};
ghost use Rattle.semantic_model.specs.Step.{steps};
ghost use Rattle.renamer.specs.Told.{told_by};
ghost use Rattle.mangle_model.specs.MayMangle.{is_global, is_kept_kind, is_kept_symbol, is_of_wrapper, is_open_scope, wrapper_names};
ghost use Rattle.mangle_model.specs.Mangling.{may_change};
ghost use Rattle.mangler.specs.Changing.{must_keep, options_of, IsSeen};
ghost use Rattle.mangle_names.specs.Marks.{is_number_marked};
ghost use Rattle.mangler.specs.Withs.{EndsWith};

use crate::options::MangleOptions;
use crate::seen::Seen;
use renamer::Analysed;
use scoping::Scoping;
use semantic_kinds::class::is_word;
use semantic_syntax::{ScopeFlags, ScopeId, SourceType, SymbolFlags, SymbolId};
use semantic_tree::Program;
use std::alloc::{AllocError, Global};

/// Whether names are looked up in the scope by others, where bodies of `with` statements open before that end.
fn is_open_scope(scoping: &Scoping, with_end: usize, scope: ScopeId) -> bool
    requires { EndsWith scoping.now.scopes with_end }
    ensures { result ≡ is_open_scope scoping.now.scopes scope (slice_get scoping.now.scopes scope) }
{
    if scope.index() >= scoping.scopes_len() {
        return true;
    }
    let flags = scoping.scope_flags(scope);
    flags.intersects(ScopeFlags::DirectEval)
        || flags.intersects(ScopeFlags::TsModuleBlock)
        || scope.index() < with_end
}

/// Whether the scope has the variables of a script.
fn is_global(options: MangleOptions, source_type: SourceType, scope: ScopeId) -> bool
    ensures { result ≡ is_global (options_of options) source_type scope }
{
    scope.index() == 0 && source_type.is_script() && !options.toplevel
}

/// Whether it is the name of a parameter of the function that a CommonJS module's code becomes.
fn is_wrapper_name(name: &str) -> bool
    ensures { result ≡ list_any (bytes_eq (chars name.now)) wrapper_names }
{
    is_word(name, "exports")
        || is_word(name, "require")
        || is_word(name, "module")
        || is_word(name, "__filename")
        || is_word(name, "__dirname")
}

/// Whether the symbol is a variable of a CommonJS module that is also such a parameter.
fn is_of_wrapper(source_type: SourceType, scoping: &Scoping, symbol: SymbolId) -> bool
    requires { symbol < length scoping.now.symbols }
    ensures { result ≡ is_of_wrapper source_type (symbol_of scoping.now symbol) }
{
    scoping.symbol_scope_id(symbol).index() == 0
        && source_type.is_commonjs()
        && is_wrapper_name(scoping.symbol_name(symbol))
}

/// Whether the symbol is only declared, is erased, or has members.
fn is_kept_kind(scoping: &Scoping, symbol: SymbolId) -> bool
    requires { symbol < length scoping.now.symbols }
    ensures { result ≡ is_kept_kind (symbol_of scoping.now symbol) }
{
    let flags = scoping.symbol_flags(symbol);
    flags.intersects(SymbolFlags::EnumMember)
        || flags.intersects(SymbolFlags::Ambient)
        || flags.intersects(SymbolFlags::TypeParameter)
        || flags.intersects(SymbolFlags::TypeAlias)
        || flags.intersects(SymbolFlags::Interface)
        || flags.intersects(SymbolFlags::NamespaceModule)
        || flags.intersects(SymbolFlags::ValueModule)
}

/// Whether the symbol must keep its name for what it is, or for the name itself.
fn is_kept_symbol(program: &Program, scoping: &Scoping, seen: &Seen, symbol: SymbolId) -> bool
    requires symbol { symbol < length scoping.now.symbols }
    requires seen { IsSeen program.now seen.now }
    ensures { result ≡ is_kept_symbol (steps program.now) (symbol_of scoping.now symbol) }
{
    let name = scoping.symbol_name(symbol);
    is_kept_kind(scoping, symbol)
        || is_word(name, "arguments")
        || is_word(name, "eval")
        || is_word(name, "__proto__")
        || seen.predicates.has(name)
}

/// Whether the symbol must keep its name, for its scope, for what it is, or for its nodes.
fn must_keep(
    options: MangleOptions,
    program: &Program,
    scoping: &Scoping,
    seen: &Seen,
    symbol: SymbolId,
) -> bool
    requires seen { IsSeen program.now seen.now }
    requires scopes { EndsWith scoping.now.scopes seen.now.with_end }
    requires symbol { symbol < length scoping.now.symbols }
    ensures { result ≡ must_keep (options_of options) program.now scoping.now
        (has_key nat_eq seen.now.fixed symbol) (symbol_of scoping.now symbol) }
{
    let scope = scoping.symbol_scope_id(symbol);
    let source_type = program.source_type();
    source_type.is_typescript_definition()
        || is_open_scope(scoping, seen.with_end, scope)
        || is_global(options, source_type, scope)
        || is_of_wrapper(source_type, scoping, symbol)
        || is_kept_symbol(program, scoping, seen, symbol)
        || seen.fixed.contains(&symbol.index())
}

/// Whether the symbol may change.
fn may_change(
    options: MangleOptions,
    program: &Program,
    analysed: &Analysed<'_>,
    seen: &Seen,
    symbol: SymbolId,
) -> bool
    requires analysis { told_by analysed.now ≡ analysis_of program.now }
    requires seen { IsSeen program.now seen.now }
    requires symbol { symbol < length analysed.now.scoping.now.symbols }
    ensures { result ≡ may_change (options_of options) program.now symbol }
{
    !must_keep(options, program, analysed.scoping, seen, symbol)
}

/// For each symbol, whether it may change.
pub fn changing_symbols(
    alloc: Global,
    options: MangleOptions,
    program: &Program,
    analysed: &Analysed<'_>,
    seen: &Seen,
) -> Result<Vec<bool>, AllocError>
    requires analysis { told_by analysed.now ≡ analysis_of program.now }
    requires seen { IsSeen program.now seen.now }
    ensures { IfOk result (λ may. (s : ℕ)
        → is_number_marked may.items s ≡ may_change (options_of options) program.now s) }
{
    let mut may = Vec::new(alloc);
    for number in 0..(analysed.scoping.symbols_len() as u32) {
        let symbol = SymbolId::new(number);
        may.push(may_change(options, program, analysed, seen, symbol))?;
    }
    Ok(may)
}
