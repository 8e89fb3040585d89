//! What each scope binds, by the numbers of names.
ghost use Rattle.std.specs.Prelude.{◌≡◌, ◌==◌, ◌+◌, ◌<◌, ◌≤◌, map, [], ◌∷◌, ◌++◌, length, nat_eq, false, None, Some, slice_index_or, slice_set, OnOk, OnErr};
ghost use Rattle.std.specs.Map.{lookup};
ghost use Rattle.indexmap.specs.IndexMap.{insert_entry, shift_remove_entry, spare};
ghost use Rattle.scoping_rows.specs.Flat.{key_eq, filled, far, near, moved_number, renumbered, StandsAt, HasPositions, IsIndexed, AreIndexed, KeepsElsewhere, Retells, IsRekeyed};
ghost use Rattle.scoping_rows.specs.Kept.{rows_without_types, IsPacked};

use crate::kept::stays;
use crate::near_slots::NEAR;
use crate::scope_slots::{BoundIter, ScopeSlots};
use crate::symbol_row::SymbolRow;
use indexmap::IndexMap;
use semantic_syntax::{ScopeId, SymbolId};
use std::alloc::{AllocError, Global};
use std::marker::Model;
use std::mem;

/// What each scope binds, in slots. One map tells the position of a binding's slot from the pair of the scope and the
/// name's number. A number that is unbound leaves an empty slot, and the slots of a scope are packed once most of
/// them are empty: so unbinding costs what binding does, and a pass over a scope what it binds.
#[derive(Drop)]
pub struct BindingTable {
    alloc: Global,
    positions: IndexMap<(ScopeId, usize), usize>,
    scopes: Vec<ScopeSlots>,
}

impl Model for BindingTable {
    ghost use Rattle.std.specs.Prelude.{ℕ, List};

    ghost Value = { List (List (ℕ × ℕ)) };

    ghost use Rattle.scoping_rows.specs.Tabled.{bindings_of_table, IsKept};

    ghost view = { bindings_of_table };

    ghost invariant = { IsKept };
}

/// The position that the map tells of the number in the scope. Few scopes have slots with entries, so it stands out of line.
#[inline(never)]
fn entered_position(
    positions: &IndexMap<(ScopeId, usize), usize>,
    scope: ScopeId,
    number: usize,
) -> Option<usize>
    ensures { result ≡ lookup (key_eq (scope, number)) positions.now.entries }
{
    let position = positions.get(&(scope, number))?;
    Some(*position)
}

/// The position of the number's slot in the scope.
#[inline(always)]
fn position_of(
    positions: &IndexMap<(ScopeId, usize), usize>,
    slots: &ScopeSlots,
    scope: ScopeId,
    number: usize,
) -> Option<usize>
    requires { IsIndexed positions.now.entries scope slots.now }
    ensures { StandsAt slots.now number result }
{
    if slots.len() == 0 {
        return None;
    }
    if let Some(position) = slots.near_position(number) {
        return Some(position);
    }
    if slots.len() <= NEAR {
        return None;
    }
    entered_position(positions, scope, number)
}

/// The number leaves its slot at the position: the map tells of it no more.
fn forget(
    positions: &mut IndexMap<(ScopeId, usize), usize>,
    scope: ScopeId,
    number: usize,
    position: usize,
)
    requires { position < near → lookup (key_eq (scope, number)) positions.old.entries ≡ None }
    ensures { Retells positions.old.entries positions.new.entries (scope, number) None }
{
    if position >= NEAR {
        let _position = positions.swap_remove(&(scope, number));
    }
}

/// The number's slot moves from the position to an earlier one.
fn retell(
    positions: &mut IndexMap<(ScopeId, usize), usize>,
    scope: ScopeId,
    number: usize,
    position: usize,
    earlier: usize,
)
    requires unknown { position < near
        → lookup (key_eq (scope, number)) positions.old.entries ≡ None }
    requires known { near ≤ position
        → lookup (key_eq (scope, number)) positions.old.entries ≡ Some position }
    requires earlier { earlier ≤ position }
    ensures near { earlier < near
        → Retells positions.old.entries positions.new.entries (scope, number) None }
    ensures far { near ≤ earlier
        → Retells positions.old.entries positions.new.entries (scope, number) (Some earlier) }
{
    if earlier < NEAR {
        forget(positions, scope, number, position);
        return;
    }
    let _previous = positions.insert((scope, number), earlier);
}

/// Binds the number to the symbol. A new number goes last, a bound one keeps its position.
fn bind(
    positions: &mut IndexMap<(ScopeId, usize), usize>,
    slots: &mut ScopeSlots,
    scope: ScopeId,
    number: usize,
    symbol: SymbolId,
) -> Result<(), AllocError>
    requires { IsIndexed positions.old.entries scope slots.old }
    ensures positions { IsIndexed positions.new.entries scope slots.new }
    ensures elsewhere { KeepsElsewhere positions.old.entries positions.new.entries scope }
    ensures ok { OnOk result (filled slots.new
        ≡ insert_entry nat_eq (filled slots.old) number symbol) }
    ensures err { OnErr result (filled slots.new ≡ filled slots.old) }
{
    if let Some(position) = position_of(positions, slots, scope, number) {
        slots.rebind(position, symbol);
        return Ok(());
    }
    let position = slots.len();
    if position < NEAR {
        slots.push(number, symbol)?;
        return Ok(());
    }
    positions.reserve(1)?;
    slots.push(number, symbol)?;
    let _previous = positions.insert((scope, number), position);
    Ok(())
}

/// Moves what the slot binds to the end of the packed ones, or unbinds it if it goes with the types. Tells how many
/// are packed then.
fn settle(
    positions: &mut IndexMap<(ScopeId, usize), usize>,
    slots: &mut ScopeSlots,
    scope: ScopeId,
    rows: &[SymbolRow],
    position: usize,
    packed: usize,
) -> usize
    requires positions { IsIndexed positions.old.entries scope slots.old }
    requires within { position < length slots.old }
    requires packed { IsPacked rows.now slots.old packed position }
    ensures positions { IsIndexed positions.new.entries scope slots.new }
    ensures elsewhere { KeepsElsewhere positions.old.entries positions.new.entries scope }
    ensures count { length slots.new ≡ length slots.old }
    ensures kept { rows_without_types rows.now (filled slots.new)
        ≡ rows_without_types rows.now (filled slots.old) }
    ensures packed { IsPacked rows.now slots.new result (position + 1) }
{
    let (number, symbol) = match slots.get(position) {
        Some(bound) => bound,
        None => return packed,
    };
    if !stays(rows, symbol) {
        slots.clear(position);
        forget(positions, scope, number, position);
        return packed;
    }
    let _count = slots.len();
    slots.relocate(position, packed);
    retell(positions, scope, number, position, packed);
    packed + 1
}

/// Unbinds the symbols that go with the types, and drops the empty slots. The others keep their order.
fn pack(
    positions: &mut IndexMap<(ScopeId, usize), usize>,
    slots: &mut ScopeSlots,
    scope: ScopeId,
    rows: &[SymbolRow],
)
    requires { IsIndexed positions.old.entries scope slots.old }
    ensures positions { IsIndexed positions.new.entries scope slots.new }
    ensures elsewhere { KeepsElsewhere positions.old.entries positions.new.entries scope }
    ensures kept { filled slots.new ≡ rows_without_types rows.now (filled slots.old) }
{
    let mut packed = 0;
    for position in 0..slots.len() {
        packed = settle(positions, slots, scope, rows, position, packed);
    }
    slots.truncate(packed);
}

/// Does so for each scope.
fn pack_each(
    positions: &mut IndexMap<(ScopeId, usize), usize>,
    scopes: &mut Vec<ScopeSlots>,
    rows: &[SymbolRow],
)
    requires positions { AreIndexed positions.old.entries scopes.old.items }
    requires fits { length scopes.old.items < 4294967296 }
    ensures positions { AreIndexed positions.new.entries scopes.new.items }
    ensures kept { map filled scopes.new.items
        ≡ map (rows_without_types rows.now) (map filled scopes.old.items) }
{
    for scope in 0..scopes.len() {
        pack(
            positions,
            &mut scopes[scope],
            ScopeId::new(scope as u32),
            rows,
        );
    }
}

/// Unbinds the number. The others keep their order.
fn unbind(
    positions: &mut IndexMap<(ScopeId, usize), usize>,
    slots: &mut ScopeSlots,
    scope: ScopeId,
    number: usize,
)
    requires { IsIndexed positions.old.entries scope slots.old }
    ensures positions { IsIndexed positions.new.entries scope slots.new }
    ensures elsewhere { KeepsElsewhere positions.old.entries positions.new.entries scope }
    ensures gone { filled slots.new ≡ shift_remove_entry (nat_eq number) (filled slots.old) }
{
    let position = match position_of(positions, slots, scope, number) {
        Some(position) => position,
        None => return,
    };
    forget(positions, scope, number, position);
    slots.clear(position);
    if slots.is_sparse() {
        pack(positions, slots, scope, &[]);
    }
}

/// Tells the positions of the slots under another scope, which binds nothing. There is room for it.
fn rekey(
    positions: &mut IndexMap<(ScopeId, usize), usize>,
    slots: &ScopeSlots,
    from: ScopeId,
    to: ScopeId,
)
    requires room { length slots.now ≤ spare positions.old }
    requires apart { (from == to) ≡ false }
    requires from { HasPositions positions.old.entries from (far slots.now) }
    requires to { HasPositions positions.old.entries to [] }
    ensures { IsRekeyed positions.old.entries positions.new.entries from to (far slots.now)
        (length slots.now) }
{
    for position in 0..slots.len() {
        if let Some((number, _)) = slots.far(position) {
            let _position = positions.swap_remove(&(from, number));
            let _previous = positions.insert((to, number), position);
        }
    }
}

impl BindingTable {
    /// A table without scopes.
    pub fn new(alloc: Global) -> BindingTable
        ensures { result ≡ [] }
    {
        BindingTable {
            alloc,
            positions: IndexMap::new(alloc),
            scopes: Vec::new(alloc),
        }
    }

    /// Adds a scope, which binds nothing.
    pub fn add_scope(&mut self) -> Result<(), AllocError>
        ensures ok { OnOk result (self.new ≡ self.old ++ [] ∷ []) }
        ensures err { OnErr result (self.new ≡ self.old) }
    {
        self.scopes.push(ScopeSlots::new(self.alloc))?;
        Ok(())
    }

    /// The symbol that the scope binds to the number.
    pub fn get(&self, scope: ScopeId, number: usize) -> Option<SymbolId>
        requires { scope < length self.now }
        ensures { result ≡ lookup (nat_eq number) (slice_index_or self.now scope []) }
    {
        let slots = &self.scopes[scope.index()];
        let position = position_of(&self.positions, slots, scope, number)?;
        let (_, symbol) = slots.get(position)?;
        Some(symbol)
    }

    /// What the scope binds, in the order of binding.
    pub fn iter(&self, scope: ScopeId) -> BoundIter<'_>
        requires { scope < length self.now }
        ensures { result ≡ slice_index_or self.now scope [] }
    {
        self.scopes[scope.index()].iter()
    }

    /// How many numbers the scope binds.
    pub fn bound_len(&self, scope: ScopeId) -> usize
        requires { scope < length self.now }
        ensures { result ≡ length (slice_index_or self.now scope []) }
    {
        self.scopes[scope.index()].bound_len()
    }

    /// Binds the number to the symbol. A new number goes last, a bound one keeps its position.
    pub fn insert(
        &mut self,
        scope: ScopeId,
        number: usize,
        symbol: SymbolId,
    ) -> Result<(), AllocError>
        requires { scope < length self.old }
        ensures ok { OnOk result
            (self.new ≡ slice_set self.old scope
            (insert_entry nat_eq (slice_index_or self.old scope []) number symbol)) }
        ensures err { OnErr result (self.new ≡ self.old) }
    {
        bind(
            &mut self.positions,
            &mut self.scopes[scope.index()],
            scope,
            number,
            symbol,
        )
    }

    /// Unbinds the number. The others keep their order.
    pub fn remove(&mut self, scope: ScopeId, number: usize)
        requires { scope < length self.old }
        ensures { self.new ≡ slice_set self.old scope
            (shift_remove_entry (nat_eq number) (slice_index_or self.old scope [])) }
    {
        unbind(
            &mut self.positions,
            &mut self.scopes[scope.index()],
            scope,
            number,
        );
    }

    /// Moves the number from one scope to the other, where it is bound.
    pub fn move_number(
        &mut self,
        from: ScopeId,
        to: ScopeId,
        number: usize,
    ) -> Result<(), AllocError>
        requires from { from < length self.old }
        requires to { to < length self.old }
        ensures ok { OnOk result (self.new ≡ moved_number self.old from to number) }
        ensures err { OnErr result (self.new ≡ self.old) }
    {
        if let Some(symbol) = self.get(from, number) {
            self.insert(to, number, symbol)?;
            self.remove(from, number);
        }
        Ok(())
    }

    /// Unbinds the old number and binds the new one. Equal numbers stay as they are.
    pub fn rename(
        &mut self,
        scope: ScopeId,
        old: usize,
        new: usize,
        symbol: SymbolId,
    ) -> Result<(), AllocError>
        requires scope { scope < length self.old }
        ensures ok { OnOk result (self.new ≡ renumbered self.old scope old new symbol) }
        ensures err { OnErr result (self.new ≡ self.old) }
    {
        if new == old {
            return Ok(());
        }
        self.insert(scope, new, symbol)?;
        self.remove(scope, old);
        Ok(())
    }

    /// Makes the list of one scope that of the other, which binds nothing.
    pub fn take_over(&mut self, from: ScopeId, to: ScopeId) -> Result<(), AllocError>
        requires from { from < length self.old }
        requires to { to < length self.old }
        requires apart { (from == to) ≡ false }
        requires empty { slice_index_or self.old to [] ≡ [] }
        ensures ok { OnOk result
            (self.new ≡ slice_set (slice_set self.old from []) to
            (slice_index_or self.old from [])) }
        ensures err { OnErr result (self.new ≡ self.old) }
    {
        self.positions.reserve(self.scopes[from.index()].len())?;
        let empty = ScopeSlots::new(self.alloc);
        let slots = mem::replace(&mut self.scopes[from.index()], empty);
        rekey(&mut self.positions, &slots, from, to);
        self.scopes[to.index()] = slots;
        Ok(())
    }

    /// Unbinds the symbols that go with the types. The others keep their order.
    pub fn retain_values(&mut self, rows: &[SymbolRow])
        requires { length self.old < 4294967296 }
        ensures { self.new ≡ map (rows_without_types rows.now) self.old }
    {
        pack_each(&mut self.positions, &mut self.scopes, rows);
    }

    /// Makes room for more scopes.
    pub fn reserve(&mut self, scopes: usize) -> Result<(), AllocError>
        ensures { self.new ≡ self.old }
    {
        self.scopes.reserve(scopes)
    }
}

impl Clone for BindingTable {
    ghost is_clone = { λ t u. u ≡ t };

    fn clone(&self) -> Result<BindingTable, AllocError> {
        Ok(BindingTable {
            alloc: self.alloc,
            positions: self.positions.clone()?,
            scopes: self.scopes.clone()?,
        })
    }
}
