//! Room for rows, and rows for which there is room.
ghost use Rattle.std.specs.Prelude.{◌≡◌, ◌<◌, ◌++◌, [], ◌∷◌, map, OnOk, vec_len, vec_capacity};

use super::ScopeRow;
use scoping_rows::symbol_row::SymbolRow;
use scoping_rows::use_list::UseList;
use semantic_syntax::Reference;
use std::alloc::{AllocError, Global};

/// Makes room for more scopes, for more symbols with their lists of uses, and for more references.
pub(crate) fn reserve_rows(
    scopes: &mut Vec<ScopeRow>,
    symbols: &mut Vec<SymbolRow>,
    uses: &mut Vec<UseList>,
    references: &mut Vec<Reference>,
    more_scopes: usize,
    more_symbols: usize,
    more_references: usize,
) -> Result<(), AllocError>
    ensures scopes { scopes.new.items ≡ scopes.old.items }
    ensures symbols { symbols.new.items ≡ symbols.old.items }
    ensures uses { uses.new.items ≡ uses.old.items }
    ensures references { references.new.items ≡ references.old.items }
{
    scopes.reserve(more_scopes)?;
    symbols.reserve(more_symbols)?;
    uses.reserve(more_symbols)?;
    references.reserve(more_references)
}

/// Makes room for one more symbol and for its list of uses.
pub(crate) fn reserve_symbol(
    symbols: &mut Vec<SymbolRow>,
    uses: &mut Vec<UseList>,
) -> Result<(), AllocError>
    ensures symbols { symbols.new.items ≡ symbols.old.items }
    ensures uses { uses.new.items ≡ uses.old.items }
    ensures room { OnOk result (vec_len symbols.new < vec_capacity symbols.new) }
    ensures uses_room { OnOk result (vec_len uses.new < vec_capacity uses.new) }
{
    symbols.reserve(1)?;
    uses.reserve(1)
}

/// Adds a value to a list that has room for it.
pub(crate) fn push_in_room<T: Drop>(list: &mut Vec<T>, value: T)
    requires { vec_len list.old < vec_capacity list.old }
    ensures { list.new.items ≡ list.old.items ++ value ∷ [] }
{
    let _ = list.push(value);
}

/// Adds a symbol without uses, for which there is room.
pub(crate) fn push_symbol(
    alloc: Global,
    symbols: &mut Vec<SymbolRow>,
    uses: &mut Vec<UseList>,
    row: SymbolRow,
)
    requires room { vec_len symbols.old < vec_capacity symbols.old }
    requires uses_room { vec_len uses.old < vec_capacity uses.old }
    ensures symbols { symbols.new.items ≡ symbols.old.items ++ row ∷ [] }
    ensures uses { map (λ v. v.items) uses.new.items
        ≡ map (λ v. v.items) uses.old.items ++ [] ∷ [] }
{
    push_in_room(symbols, row);
    push_in_room(uses, UseList::new(alloc));
}
