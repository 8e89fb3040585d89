//! Which nodes bear the name of a symbol, and which names a symbol may not get.

ghost use Rattle.std.specs.Prelude.{◌≡◌};
ghost use Rattle.std.specs.Str.{chars};
ghost use Rattle.semantic_model.specs.TablesOf.{is_symbol};
ghost use Rattle.renamer.specs.Told.{told_by};
ghost use Rattle.rename_model.specs.Refusal.{is_bad_name};
ghost use Rattle.rename_model.specs.Renamed.{bears_name};

use crate::analysed::Analysed;
use semantic_kinds::class::is_word;
use semantic_syntax::{NodeId, SymbolId};

/// Whether there is a symbol, and it is this one.
fn is_symbol(symbol: SymbolId, found: Option<SymbolId>) -> bool
    ensures { result ≡ is_symbol symbol found }
{
    match found {
        Some(found) => found == symbol,
        None => false,
    }
}

/// Whether the node bears the name of the symbol: it declares the symbol, or is tied to it.
pub fn bears_name(analysed: &Analysed<'_>, symbol: SymbolId, node: NodeId) -> bool
    ensures { result ≡ bears_name (told_by analysed.now) symbol node }
{
    is_symbol(symbol, analysed.symbol_at(node)) || is_symbol(symbol, analysed.tied_at(node))
}

/// Whether no symbol gets the name: it is empty, `arguments` or `eval`.
pub fn is_bad_name(name: &str) -> bool
    ensures { result ≡ is_bad_name (chars name.now) }
{
    is_word(name, "") || is_word(name, "arguments") || is_word(name, "eval")
}
