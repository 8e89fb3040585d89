//! Rows of symbols, each by its id.
ghost use Rattle.std.specs.Prelude.{◌≡◌, ◌<◌, length, slice_index_or};
ghost use Rattle.std.specs.List.{AllByRecursion};
ghost use Rattle.scoping_rows.specs.Names.{name_at, IsNumberOf};
ghost use Rattle.scoping_rows.specs.Row.{Row, no_row, row_named, row_moved};

use scoping_rows::name_table::NameTable;
use scoping_rows::symbol_row::SymbolRow;
use semantic_syntax::{ScopeId, SymbolId};

/// The number of the row's name, which is its only one.
pub(crate) fn own_number(names: &NameTable, rows: &Vec<SymbolRow>, id: SymbolId) -> usize
    requires id { id < length rows.now.items }
    requires named { AllByRecursion (λ (y : Row). y.name < length names.now) rows.now.items }
    ensures { IsNumberOf names.now
        (name_at names.now (slice_index_or rows.now.items id no_row).name) result }
{
    let number = rows[id.index()].name();
    names.attest(number);
    number
}

/// Gives the row the name.
pub(crate) fn set_name(rows: &mut Vec<SymbolRow>, id: SymbolId, number: usize)
    requires { id < length rows.old.items }
    ensures { rows.new.items ≡ row_named number rows.old.items id }
{
    rows[id.index()].set_name(number);
}

/// Gives the row to the scope.
pub(crate) fn set_home(rows: &mut Vec<SymbolRow>, id: SymbolId, scope: ScopeId)
    requires { id < length rows.old.items }
    ensures { rows.new.items ≡ row_moved scope rows.old.items id }
{
    rows[id.index()].set_scope(scope);
}
