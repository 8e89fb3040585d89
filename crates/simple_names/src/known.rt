//! What is known of a program whose symbols get names.
ghost use Rattle.std.specs.Prelude.{◌≡◌};
ghost use Rattle.mangle_model.specs.OneNameEach.{bears_such, is_such};
ghost use Rattle.simple_names.specs.Telling.{may_by, told_by};

use mangle_names::is_marked;
use scoping::{NodeTables, Scoping};
use semantic_queries::node_symbols::{symbol_at, tied_at};
use semantic_syntax::{NodeId, SymbolId};

/// The tables of a program, what belongs to its nodes, and which of its symbols may change.
#[derive(Clone, Copy)]
pub struct Known<'a> {
    pub scoping: &'a Scoping,
    pub nodes: &'a NodeTables,
    pub may: &'a [bool],
}

/// Whether there is a symbol, and it may change.
fn is_such(known: &Known<'_>, symbol: Option<SymbolId>) -> bool
    ensures { result ≡ is_such (may_by known.now) symbol }
{
    match symbol {
        Some(symbol) => is_marked(known.may, symbol.index()),
        None => false,
    }
}

/// Whether the node declares a symbol that may change, or is tied to one.
pub fn bears_such(known: &Known<'_>, node: NodeId) -> bool
    ensures { result ≡ bears_such (may_by known.now) (told_by known.now) node }
{
    is_such(known, symbol_at(known.nodes, node))
        || is_such(known, tied_at(known.scoping, known.nodes, node))
}
