//! What the walk has made so far, and how one more declaration comes to its symbol.

ghost use Rattle.std.specs.Prelude.{◌≡◌, ◌<◌, ◌++◌, None, Some, unwrap_or, length, map, drop, option_map, fold, IfSome, IfOk, OnOk};
ghost use Rattle.std.specs.Str.{bytes_eq};
ghost use Rattle.std.specs.Map.{lookup};
ghost use Rattle.std.specs.Option.{option_map_or};
ghost use Rattle.scoping_rows.specs.Names.{name_of};
ghost use Rattle.semantic_syntax.specs.Reading.{scope_of, bound_in, symbol_flags};
ghost use Rattle.semantic_model.specs.Binding.{get};
ghost use Rattle.semantic_model.specs.Fold.{or_else, unless_expression};
ghost use Rattle.walk_model.specs.Opens.{open_in};
ghost use Rattle.walk_model.specs.WalkState.{nothing_made};
ghost use Rattle.walk_model.specs.Declares as walked;
ghost use Rattle.table_building.specs.Conflicting.{noted_conflict_diagnostic};
ghost use Rattle.table_building.specs.Growth.{Goes};
ghost use Rattle.table_building.specs.Named.{naming, named_by};

use crate::conflicts::Conflicts;
use crate::declaration::Declaration;
use crate::hoisting_variables::HoistingVariables;
use crate::route::parent;
use node_rules::rows::Row;
use resolver::UnresolvedReferences;
use scoping::{NodeTables, Scoping};
use semantic_diagnostics::Diagnostics;
use semantic_syntax::{Ident, ScopeFlags, ScopeId, SymbolFlags, SymbolId};
use semantic_tree::AstKind;
use std::alloc::{AllocError, Global};
use std::marker::Model;

/// Scopes, symbols, bindings and references so far, what belongs to each node, the names that scopes remember,
/// the conflicts, and the references that wait to be settled.
#[derive(Drop)]
pub struct Declared<'a> {
    pub(crate) alloc: Global,
    pub(crate) scoping: Scoping,
    pub(crate) tables: NodeTables,
    pub(crate) hoisting_variables: HoistingVariables,
    pub(crate) conflicts: Conflicts<'a>,
    pub(crate) pending: UnresolvedReferences<'a>,
}

impl<'a> Model for Declared<'a> {
    ghost use Rattle.walk_model.specs.WalkState.{WalkState};

    ghost Value = { WalkState };

    ghost use Rattle.table_building.specs.Made.{walk_state, IsSound};

    ghost view = { walk_state };

    ghost invariant = { IsSound };
}

#[tactic(auto, using(crate::proofs::Growing::growing))]
impl<'a> Declared<'a> {
    /// Nothing is made yet but the root's scope.
    pub fn new(
        alloc: Global,
        root: AstKind<'_>,
        flags: ScopeFlags,
    ) -> Result<Declared<'a>, AllocError>
        ensures { IfOk result (λ made. made
            ≡ open_in nothing_made None root.entry.node.now.node_id 0 flags.bits) }
    {
        let mut declared = Declared::empty(alloc);
        match declared.open_root(root, flags) {
            Ok(_) => Ok(declared),
            Err(error) => {
                declared.give_up();
                Err(error)
            }
        }
    }

    /// Tables without any scope: not even the root's is open yet.
    fn empty(alloc: Global) -> Declared<'a>
        ensures { result ≡ nothing_made }
    {
        Declared {
            alloc,
            scoping: Scoping::new(alloc),
            tables: NodeTables::new(alloc),
            hoisting_variables: HoistingVariables::new(alloc),
            conflicts: Conflicts::new(alloc),
            pending: UnresolvedReferences::new(alloc),
        }
    }

    /// Makes room for more symbols, references and scopes. What is made stays, whatever the answer.
    pub fn reserve(
        &mut self,
        symbols: usize,
        references: usize,
        scopes: usize,
    ) -> Result<(), AllocError>
        ensures { self.new ≡ self.old }
    {
        self.scoping.reserve(symbols, references, scopes)?;
        self.tables.reserve(scopes, symbols, references)?;
        self.pending.reserve(references)
    }

    /// The scopes, symbols, bindings and references so far.
    pub fn scoping(&self) -> &Scoping
        ensures { result.now ≡ self.now.tables }
    {
        &self.scoping
    }

    /// What belongs to each node.
    pub fn tables(&self) -> &NodeTables
        ensures { result.now ≡ self.now.nodes }
    {
        &self.tables
    }

    /// How many conflicts there are.
    pub fn conflicts_len(&self) -> usize
        ensures { result ≡ length self.now.conflicts }
    {
        self.conflicts.len()
    }

    /// Adds a diagnostic for each conflict from a position on, at the end of the list.
    pub fn tell_from(&self, from: usize, out: &mut Diagnostics) -> Result<(), AllocError>
        ensures { OnOk result (out.new
            ≡ out.old ++ map noted_conflict_diagnostic (drop from self.now.conflicts)) }
    {
        self.conflicts.tell_from(self.alloc, from, out)
    }

    /// Hands out the tables, and what belongs to each node.
    pub fn into_tables(self) -> (Scoping, NodeTables)
        ensures scoping { result.0 ≡ self.entry.tables }
        ensures tables { result.1 ≡ self.entry.nodes }
    {
        (self.scoping, self.tables)
    }

    /// Gives up what is made.
    pub fn give_up(self) {
        drop(self);
    }

    /// How many references wait.
    pub fn waiting(&self) -> usize
        ensures { result ≡ length self.now.waiting }
    {
        self.pending.len()
    }

    /// The symbol that the scope binds to the name.
    pub(crate) fn bound(&self, scope: ScopeId, name: Ident<'_>) -> Option<SymbolId>
        requires { scope < length self.now.tables.scopes }
        ensures value { result ≡ bound_in self.now.tables scope (name_of name.entry) }
        ensures within { IfSome result (λ y. y < length self.now.tables.symbols) }
    {
        self.scoping.attest();
        self.scoping.get_binding(scope, name)
    }

    /// The scope around the scope.
    pub(crate) fn parent(&self, scope: ScopeId) -> Option<ScopeId>
        requires { scope < length self.now.tables.scopes }
        ensures value { result ≡ (scope_of self.now.tables scope).parent }
        ensures within { IfSome result (λ s. s < length self.now.tables.scopes) }
    {
        parent(&self.scoping, scope)
    }

    /// The symbol that the scope remembers for the name.
    fn recalled(&self, scope: ScopeId, name: Ident<'_>) -> Option<SymbolId>
        ensures value { result ≡ get self.now.remembered scope (name_of name.entry) }
        ensures within { IfSome result (λ y. y < length self.now.tables.symbols) }
    {
        self.hoisting_variables.get(scope, name)
    }

    /// The symbol that the scope binds to the name, else the one that it remembers.
    fn known(&self, scope: ScopeId, name: Ident<'_>) -> Option<SymbolId>
        requires { scope < length self.now.tables.scopes }
        ensures value { result ≡ or_else (bound_in self.now.tables scope (name_of name.entry))
            (get self.now.remembered scope (name_of name.entry)) }
        ensures within { IfSome result (λ y. y < length self.now.tables.symbols) }
    {
        if let Some(symbol) = self.bound(scope, name) {
            return Some(symbol);
        }
        self.recalled(scope, name)
    }

    /// The symbol that the scope knows for the name. The own name of a function expression counts as none: it is
    /// bound around what the function declares (ECMAScript 15.2.5).
    pub(crate) fn found(&self, scope: ScopeId, name: Ident<'_>) -> Option<SymbolId>
        requires { scope < length self.now.tables.scopes }
        ensures value { result ≡ walked.found self.now scope (name_of name.entry) }
        ensures within { IfSome result (λ y. y < length self.now.tables.symbols) }
    {
        let symbol = self.known(scope, name)?;
        let flags = self.scoping.symbol_flags(symbol);
        if flags.intersects(SymbolFlags::FunctionExpression) {
            return None;
        }
        Some(symbol)
    }

    /// Notes a conflict where the symbol may not be declared once more in this way (ECMAScript 14.2.1,
    /// LexicallyDeclaredNames and VarDeclaredNames; TypeScript 2300, 2451).
    pub(crate) fn note_conflict(
        &mut self,
        symbol: SymbolId,
        declaration: &Declaration<'a>,
    ) -> Result<(), AllocError>
        requires { symbol < length self.old.tables.symbols }
        ensures made { OnOk result
            (self.new ≡ walked.against self.old (naming declaration.now) symbol) }
        ensures symbols { length self.new.tables.symbols ≡ length self.old.tables.symbols }
        ensures goes { Goes self.old self.new }
    {
        let flags = self.scoping.symbol_flags(symbol);
        if flags.intersects(declaration.row.excluded) {
            let earlier = self.scoping.symbol_span(symbol);
            self.conflicts
                .push(declaration.name, earlier, declaration.span)?;
        }
        Ok(())
    }

    /// Makes a new symbol, which the scope binds.
    pub(crate) fn make(
        &mut self,
        scope: ScopeId,
        declaration: &Declaration<'a>,
    ) -> Result<SymbolId, AllocError>
        requires scope { scope < length self.old.tables.scopes }
        requires room { length self.old.tables.symbols < u32.MAX }
        ensures made { OnOk result
            (self.new ≡ walked.make self.old scope (naming declaration.now)) }
        ensures symbol { IfOk result (λ y. y ≡ length self.old.tables.symbols) }
        ensures goes { Goes self.old self.new }
        ensures within { IfOk result (λ y. y < length self.new.tables.symbols) }
    {
        self.scoping.create_symbol_with_binding(
            declaration.span,
            Ident::new(declaration.name),
            declaration.row.flags,
            scope,
            scope,
            declaration.node,
        )
    }

    /// One more declaration of the symbol, without its flags.
    pub(crate) fn redeclare(
        &mut self,
        symbol: SymbolId,
        declaration: &Declaration<'a>,
    ) -> Result<(), AllocError>
        requires { symbol < length self.old.tables.symbols }
        ensures made { OnOk result
            (self.new ≡ walked.redeclare self.old symbol (naming declaration.now)) }
        ensures goes { Goes self.old self.new }
    {
        self.scoping.add_symbol_redeclaration(
            symbol,
            declaration.row.flags,
            declaration.node,
            declaration.span,
        )
    }

    /// Notes the symbol of the declaration.
    pub(crate) fn note_symbol(
        &mut self,
        symbol: SymbolId,
        declaration: &Declaration<'a>,
    ) -> Result<(), AllocError>
        ensures made { OnOk result
            (self.new ≡ walked.note_symbol self.old symbol (naming declaration.now)) }
        ensures goes { Goes self.old self.new }
    {
        self.tables.set_symbol(declaration.identifier, symbol)?;
        if declaration.is_pure {
            self.scoping.mark_no_side_effects(symbol)?;
        }
        Ok(())
    }

    /// Adds the flags of one more declaration to the symbol's.
    fn add_flags(&mut self, symbol: SymbolId, flags: SymbolFlags)
        requires { symbol < length self.old.tables.symbols }
        ensures made { self.new ≡ walked.add_flags self.old symbol flags.bits }
        ensures goes { Goes self.old self.new }
    {
        self.scoping.union_symbol_flag(symbol, flags);
    }

    /// The symbol is declared once more, with the flags of the declaration.
    fn unite(&mut self, symbol: SymbolId, declaration: &Declaration<'a>) -> Result<(), AllocError>
        requires { symbol < length self.old.tables.symbols }
        ensures made { OnOk result
            (self.new ≡ walked.unite self.old symbol (naming declaration.now)) }
        ensures goes { Goes self.old self.new }
    {
        self.note_conflict(symbol, declaration)?;
        self.redeclare(symbol, declaration)?;
        self.add_flags(symbol, declaration.row.flags);
        Ok(())
    }

    /// Declares in a scope: what is found there is declared once more, else a new symbol is bound. Gives the
    /// symbol.
    pub(crate) fn symbol_in(
        &mut self,
        scope: ScopeId,
        declaration: &Declaration<'a>,
    ) -> Result<SymbolId, AllocError>
        requires scope { scope < length self.old.tables.scopes }
        requires room { length self.old.tables.symbols < u32.MAX }
        ensures made { OnOk result
            (self.new ≡ walked.with_symbol_in self.old scope (naming declaration.now)) }
        ensures symbol { IfOk result
            (λ y. y ≡ walked.symbol_in self.old scope (naming declaration.now)) }
        ensures goes { Goes self.old self.new }
        ensures within { IfOk result (λ y. y < length self.new.tables.symbols) }
    {
        if self.hoisting_variables.remembers(scope) {
            return self.symbol_among(scope, declaration);
        }
        let new = SymbolId::new(self.scoping.symbols_len() as u32);
        match self.claim(scope, declaration)? {
            Some(symbol) => self.symbol_again(scope, symbol, declaration),
            None => Ok(new),
        }
    }

    /// Makes a new symbol, which the scope binds, unless it binds the name; then gives the symbol that it is bound to.
    fn claim(
        &mut self,
        scope: ScopeId,
        declaration: &Declaration<'a>,
    ) -> Result<Option<SymbolId>, AllocError>
        requires scope { scope < length self.old.tables.scopes }
        requires room { length self.old.tables.symbols < u32.MAX }
        ensures bound { IfOk result
            (λ o. o ≡ bound_in self.old.tables scope (naming declaration.now).name) }
        ensures made { OnOk result
            (self.new ≡ option_map_or (λ y. self.old)
            (bound_in self.old.tables scope (naming declaration.now).name)
            (walked.make self.old scope (naming declaration.now))) }
        ensures goes { Goes self.old self.new }
        ensures within { IfOk result (λ o. IfSome o (λ y. y < length self.old.tables.symbols)) }
    {
        self.scoping.attest();
        self.scoping.claim(
            declaration.span,
            Ident::new(declaration.name),
            declaration.row.flags,
            scope,
            declaration.node,
        )
    }

    /// Declares in a scope that binds the name to the symbol. The own name of a function expression counts as none, so a
    /// new symbol takes its place.
    fn symbol_again(
        &mut self,
        scope: ScopeId,
        symbol: SymbolId,
        declaration: &Declaration<'a>,
    ) -> Result<SymbolId, AllocError>
        requires scope { scope < length self.old.tables.scopes }
        requires symbol { symbol < length self.old.tables.symbols }
        requires room { length self.old.tables.symbols < u32.MAX }
        ensures made { OnOk result
            (self.new ≡ walked.with_found_symbol self.old scope (naming declaration.now)
            (unless_expression (symbol_flags self.old.tables) (Some symbol))) }
        ensures symbol { IfOk result
            (λ y. y ≡ unwrap_or (unless_expression (symbol_flags self.old.tables) (Some symbol))
            (length self.old.tables.symbols)) }
        ensures goes { Goes self.old self.new }
        ensures within { IfOk result (λ y. y < length self.new.tables.symbols) }
    {
        let flags = self.scoping.symbol_flags(symbol);
        if flags.intersects(SymbolFlags::FunctionExpression) {
            return self.make(scope, declaration);
        }
        self.unite(symbol, declaration)?;
        Ok(symbol)
    }

    /// Declares in a scope that may remember the name.
    fn symbol_among(
        &mut self,
        scope: ScopeId,
        declaration: &Declaration<'a>,
    ) -> Result<SymbolId, AllocError>
        requires scope { scope < length self.old.tables.scopes }
        requires room { length self.old.tables.symbols < u32.MAX }
        ensures made { OnOk result
            (self.new ≡ walked.with_symbol_in self.old scope (naming declaration.now)) }
        ensures symbol { IfOk result
            (λ y. y ≡ walked.symbol_in self.old scope (naming declaration.now)) }
        ensures goes { Goes self.old self.new }
        ensures within { IfOk result (λ y. y < length self.new.tables.symbols) }
    {
        match self.found(scope, Ident::new(declaration.name)) {
            Some(symbol) => {
                self.unite(symbol, declaration)?;
                Ok(symbol)
            }
            None => self.make(scope, declaration),
        }
    }

    /// Declares in a scope, and notes which symbol the declaration has.
    pub(crate) fn declare(
        &mut self,
        scope: ScopeId,
        declaration: &Declaration<'a>,
    ) -> Result<(), AllocError>
        requires scope { scope < length self.old.tables.scopes }
        requires room { length self.old.tables.symbols < u32.MAX }
        ensures made { OnOk result
            (self.new ≡ walked.declare self.old scope (naming declaration.now)) }
        ensures goes { Goes self.old self.new }
    {
        let symbol = self.symbol_in(scope, declaration)?;
        self.note_symbol(symbol, declaration)
    }

    /// Declares in a scope, always anew, as a catch clause does (ECMAScript 14.15.2, CatchClauseEvaluation).
    pub(crate) fn declare_anew(
        &mut self,
        scope: ScopeId,
        declaration: &Declaration<'a>,
    ) -> Result<(), AllocError>
        requires scope { scope < length self.old.tables.scopes }
        requires room { length self.old.tables.symbols < u32.MAX }
        ensures made { OnOk result
            (self.new ≡ walked.declare_anew self.old scope (naming declaration.now)) }
        ensures goes { Goes self.old self.new }
    {
        let symbol = self.make(scope, declaration)?;
        self.note_symbol(symbol, declaration)
    }

    /// The node declares the name in a scope.
    pub(crate) fn declare_name(
        &mut self,
        node: AstKind<'a>,
        name: AstKind<'a>,
        scope: ScopeId,
        row: Row,
        is_pure: bool,
    ) -> Result<(), AllocError>
        requires scope { scope < length self.old.tables.scopes }
        requires room { length self.old.tables.symbols < u32.MAX }
        ensures made { OnOk result
            (self.new ≡ walked.declare self.old scope
            (named_by node.entry.node.now row is_pure name.entry.node.now)) }
        ensures goes { Goes self.old self.new }
    {
        let declaration = Declaration::new(node, name, row, is_pure);
        self.declare(scope, &declaration)
    }
}
