//! The symbol of a node, and the symbol to which a node is tied.

ghost use Rattle.std.specs.Prelude.{◌≡◌};
ghost use Rattle.semantic_syntax.specs.Tables.{Tables};
ghost use Rattle.semantic_model.specs.Analysis.{symbol_at, tied_at};
ghost use Rattle.semantic_queries.specs.Shown.{shown};

use scoping::{NodeTables, Scoping};
use semantic_syntax::{NodeId, SymbolId};

/// The symbol that the node declares, if it is a binding identifier or an enum member with one.
pub fn symbol_at(tables: &NodeTables, node: NodeId) -> Option<SymbolId>
    ensures { (t : Tables) → result ≡ symbol_at (shown t tables.now) node }
{
    tables.symbol_of(node)
}

/// The symbol to which the node is tied, if it is an identifier reference with one. A reference that `scoping` doesn't
/// hold has none.
pub fn tied_at(scoping: &Scoping, tables: &NodeTables, node: NodeId) -> Option<SymbolId>
    ensures { result ≡ tied_at (shown scoping.now tables.now) node }
{
    match tables.reference_of(node) {
        Some(reference) => {
            if reference.index() < scoping.references_len() {
                scoping.get_reference(reference).symbol_id()
            } else {
                None
            }
        }
        None => None,
    }
}
