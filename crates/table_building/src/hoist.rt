//! How `var` variables and block functions reach past a scope (ECMAScript 8.2.7, VarScopedDeclarations; Annex B.3.2).

ghost use Rattle.std.specs.Prelude.{◌≡◌, ◌<◌, Some, length, option_map, IfSome, IfOk, OnOk};
ghost use Rattle.scoping_rows.specs.Names.{name_of};
ghost use Rattle.walk_model.specs.Declares.{found};
ghost use Rattle.walk_model.specs.Hoists as walked;
ghost use Rattle.table_building.specs.Growth.{Goes};
ghost use Rattle.table_building.specs.Routes.{IsRoute};
ghost use Rattle.table_building.specs.Named.{naming, named_by};
ghost use Rattle.table_building.specs.PassedSymbols.{passed_symbol_of, hoisted, symbol_hoisted};

use crate::declaration::Declaration;
use crate::declared::Declared;
use crate::route::Route;
use node_rules::rows::Row;
use semantic_syntax::{Ident, ScopeId, SymbolId};
use semantic_tree::AstKind;
use std::alloc::AllocError;

/// A passed scope, and its symbol that counts as the variable.
#[derive(Clone, Copy)]
struct PassedSymbol {
    scope: ScopeId,
    symbol: SymbolId,
}

#[tactic(auto, using(crate::proofs::Growing::growing))]
impl<'a> Declared<'a> {
    /// The symbol, if it counts as the variable: if it is a value or an import.
    fn value_symbol(&self, symbol: SymbolId) -> Option<SymbolId>
        requires { symbol < length self.now.tables.symbols }
        ensures value { result ≡ walked.value_symbol self.now.tables (Some symbol) }
        ensures within { IfSome result (λ y. y < length self.now.tables.symbols) }
    {
        let flags = self.scoping.symbol_flags(symbol);
        if flags.can_be_referenced_by_value() {
            Some(symbol)
        } else {
            None
        }
    }

    /// The symbol that the scope has for the name, if it counts as the variable. A symbol that is found may be a
    /// conflict (ECMAScript 14.2.1, VarDeclaredNames; TypeScript 2481, `checkVarDeclaredNamesNotShadowed`).
    fn value_symbol_in(
        &mut self,
        scope: ScopeId,
        declaration: &Declaration<'a>,
    ) -> Result<Option<SymbolId>, AllocError>
        requires { scope < length self.old.tables.scopes }
        ensures noted { OnOk result
            (self.new ≡ walked.against_found self.old (naming declaration.now)
            (found self.old scope (naming declaration.now).name)) }
        ensures symbol { IfOk result
            (λ o. o ≡ walked.value_symbol self.old.tables
            (found self.old scope (naming declaration.now).name)) }
        ensures symbols { length self.new.tables.symbols ≡ length self.old.tables.symbols }
        ensures goes { Goes self.old self.new }
        ensures within { IfOk result (λ o. IfSome o (λ y. y < length self.new.tables.symbols)) }
    {
        match self.found(scope, Ident::new(declaration.name)) {
            Some(symbol) => {
                self.note_conflict(symbol, declaration)?;
                Ok(self.value_symbol(symbol))
            }
            None => Ok(None),
        }
    }

    #[tactic(auto, using(crate::proofs::Growing::growing, crate::proofs::Passing::passing))]
    /// The first passed scope with a symbol that counts as the variable.
    fn passed_symbol(
        &mut self,
        route: &Route,
        declaration: &Declaration<'a>,
    ) -> Result<Option<PassedSymbol>, AllocError>
        requires { IsRoute (length self.old.tables.scopes) route.now }
        ensures noted { OnOk result
            (self.new ≡ walked.against_way self.old
            (naming declaration.now) route.now.passed.items) }
        ensures passed_symbol { IfOk result
            (λ o. option_map passed_symbol_of o
            ≡ walked.passed_symbol self.old route.now.passed.items (naming declaration.now).name) }
        ensures symbols { length self.new.tables.symbols ≡ length self.old.tables.symbols }
        ensures goes { Goes self.old self.new }
        ensures within { IfOk result
            (λ o. IfSome o (λ h. (h.scope < length self.new.tables.scopes)
            × (h.symbol < length self.new.tables.symbols))) }
    {
        for scope in route.passed.as_slice() {
            if let Some(symbol) = self.value_symbol_in(scope.id(), declaration)? {
                return Ok(Some(PassedSymbol {
                    scope: scope.id(),
                    symbol,
                }));
            }
        }
        Ok(None)
    }

    /// Makes the scope the one that the symbol belongs to.
    fn set_symbol_scope(&mut self, symbol: SymbolId, scope: ScopeId)
        requires { symbol < length self.old.tables.symbols }
        ensures made { self.new ≡ walked.set_symbol_scope self.old symbol scope }
        ensures goes { Goes self.old self.new }
    {
        self.scoping.set_symbol_scope_id(symbol, scope);
    }

    /// The symbol moves from one scope to another, which binds the name to it then.
    fn rebind(
        &mut self,
        name: Ident<'_>,
        symbol: SymbolId,
        from: ScopeId,
        to: ScopeId,
    ) -> Result<(), AllocError>
        requires from { from < length self.old.tables.scopes }
        requires to { to < length self.old.tables.scopes }
        requires symbol { symbol < length self.old.tables.symbols }
        ensures made { OnOk result
            (self.new ≡ walked.rebind self.old (name_of name.entry) symbol from to) }
        ensures goes { Goes self.old self.new }
    {
        self.scoping.add_binding(to, name, symbol)?;
        self.scoping.remove_binding(from, name);
        self.scoping.set_symbol_scope_id(symbol, to);
        Ok(())
    }

    /// The symbol moves from a passed scope to the target, unless the target binds the name.
    fn move_symbol(
        &mut self,
        from: ScopeId,
        target: ScopeId,
        symbol: SymbolId,
        name: Ident<'_>,
    ) -> Result<(), AllocError>
        requires from { from < length self.old.tables.scopes }
        requires target { target < length self.old.tables.scopes }
        requires symbol { symbol < length self.old.tables.symbols }
        ensures made { OnOk result
            (self.new ≡ walked.move_symbol self.old from target symbol (name_of name.entry)) }
        ensures goes { Goes self.old self.new }
    {
        match self.bound(target, name) {
            Some(_) => Ok(()),
            None => self.rebind(name, symbol, from, target),
        }
    }

    /// The scope remembers the name with the symbol.
    fn remember(
        &mut self,
        scope: ScopeId,
        name: Ident<'_>,
        symbol: SymbolId,
    ) -> Result<(), AllocError>
        requires { symbol < length self.old.tables.symbols }
        ensures made { OnOk result
            (self.new ≡ walked.remember self.old scope (name_of name.entry) symbol) }
        ensures goes { Goes self.old self.new }
    {
        self.hoisting_variables.put(scope, name, symbol)?;
        Ok(())
    }

    #[tactic(auto, using(crate::proofs::Growing::growing, crate::proofs::Passing::passing))]
    /// Every passed scope remembers the name with the symbol.
    fn remember_all(
        &mut self,
        route: &Route,
        name: Ident<'_>,
        symbol: SymbolId,
    ) -> Result<(), AllocError>
        requires { symbol < length self.old.tables.symbols }
        ensures made { OnOk result
            (self.new ≡ walked.remember_all self.old route.now.passed.items
            (name_of name.entry) symbol) }
        ensures goes { Goes self.old self.new }
    {
        for scope in route.passed.as_slice() {
            self.remember(scope.id(), name, symbol)?;
        }
        Ok(())
    }

    /// The symbol of a passed scope is declared once more, and moves to the target.
    fn move_passed_symbol(
        &mut self,
        passed_symbol: &PassedSymbol,
        target: ScopeId,
        declaration: &Declaration<'a>,
    ) -> Result<(), AllocError>
        requires target { target < length self.old.tables.scopes }
        requires scope { passed_symbol.now.scope < length self.old.tables.scopes }
        requires symbol { passed_symbol.now.symbol < length self.old.tables.symbols }
        ensures made { OnOk result
            (self.new ≡ walked.hoisted_by self.old target (naming declaration.now)
            (Some (passed_symbol_of passed_symbol.now))) }
        ensures goes { Goes self.old self.new }
    {
        self.redeclare(passed_symbol.symbol, declaration)?;
        self.move_symbol(
            passed_symbol.scope,
            target,
            passed_symbol.symbol,
            Ident::new(declaration.name),
        )
    }

    /// The symbol of a `var`: that of a passed scope that counts, which moves to the target, else it is declared in
    /// the target. So `catch (e) { var e }` moves the catch name, of which ECMAScript keeps two (Annex B.3.4).
    fn hoisted_symbol(
        &mut self,
        route: &Route,
        declaration: &Declaration<'a>,
    ) -> Result<SymbolId, AllocError>
        requires route { IsRoute (length self.old.tables.scopes) route.now }
        requires room { length self.old.tables.symbols < u32.MAX }
        ensures made { OnOk result
            (self.new ≡ hoisted self.old route.now.passed.items route.now.target
            (naming declaration.now)) }
        ensures symbol { IfOk result
            (λ y. y ≡ symbol_hoisted self.old route.now.passed.items route.now.target
            (naming declaration.now)) }
        ensures goes { Goes self.old self.new }
        ensures within { IfOk result (λ y. y < length self.new.tables.symbols) }
    {
        match self.passed_symbol(route, declaration)? {
            Some(passed_symbol) => {
                self.move_passed_symbol(&passed_symbol, route.target, declaration)?;
                Ok(passed_symbol.symbol)
            }
            None => self.symbol_in(route.target, declaration),
        }
    }

    /// Declares a `var` (ECMAScript 14.3.2, 8.2.7, VarScopedDeclarations): its home is the target, and each scope on
    /// the way there remembers it.
    fn hoist(&mut self, route: &Route, declaration: &Declaration<'a>) -> Result<(), AllocError>
        requires route { IsRoute (length self.old.tables.scopes) route.now }
        requires room { length self.old.tables.symbols < u32.MAX }
        ensures made { OnOk result
            (self.new ≡ walked.hoist self.old route.now.passed.items route.now.target
            (naming declaration.now)) }
        ensures goes { Goes self.old self.new }
    {
        let symbol = self.hoisted_symbol(route, declaration)?;
        self.note_symbol(symbol, declaration)?;
        self.remember_all(route, Ident::new(declaration.name), symbol)
    }

    /// The name moves from one scope to another, where it is bound, and its symbol too.
    fn move_name(&mut self, name: Ident<'_>, from: ScopeId, to: ScopeId) -> Result<(), AllocError>
        requires from { from < length self.old.tables.scopes }
        requires to { to < length self.old.tables.scopes }
        ensures made { OnOk result
            (self.new ≡ walked.move_name self.old (name_of name.entry) from to) }
        ensures goes { Goes self.old self.new }
    {
        match self.bound(from, name) {
            Some(symbol) => self.rebind(name, symbol, from, to),
            None => Ok(()),
        }
    }

    /// The block's binding of the name moves to the target, if that lacks the name, and the block remembers it.
    fn move_out(
        &mut self,
        block: ScopeId,
        target: ScopeId,
        symbol: SymbolId,
        name: Ident<'_>,
    ) -> Result<(), AllocError>
        requires block { block < length self.old.tables.scopes }
        requires target { target < length self.old.tables.scopes }
        requires symbol { symbol < length self.old.tables.symbols }
        ensures made { OnOk result
            (self.new ≡ walked.move_out self.old block target symbol (name_of name.entry)) }
        ensures goes { Goes self.old self.new }
    {
        match self.bound(target, name) {
            Some(_) => Ok(()),
            None => {
                self.move_name(name, block, target)?;
                self.set_symbol_scope(symbol, target);
                self.remember(block, name, symbol)
            }
        }
    }

    /// Declares a function in a block of sloppy code (ECMAScript, Annex B.3.2,
    /// sec-block-level-function-declarations-web-legacy-compatibility-semantics): it is declared in the block, and
    /// moves to the target.
    fn declare_and_move(
        &mut self,
        block: ScopeId,
        target: ScopeId,
        declaration: &Declaration<'a>,
    ) -> Result<(), AllocError>
        requires block { block < length self.old.tables.scopes }
        requires target { target < length self.old.tables.scopes }
        requires room { length self.old.tables.symbols < u32.MAX }
        ensures made { OnOk result
            (self.new ≡ walked.declare_and_move self.old block target (naming declaration.now)) }
        ensures goes { Goes self.old self.new }
    {
        let symbol = self.symbol_in(block, declaration)?;
        self.note_symbol(symbol, declaration)?;
        self.move_out(block, target, symbol, Ident::new(declaration.name))
    }

    /// The node declares the name as a `var` variable.
    pub(crate) fn hoist_name(
        &mut self,
        node: AstKind<'a>,
        name: AstKind<'a>,
        route: &Route,
        row: Row,
        is_pure: bool,
    ) -> Result<(), AllocError>
        requires route { IsRoute (length self.old.tables.scopes) route.now }
        requires room { length self.old.tables.symbols < u32.MAX }
        ensures made { OnOk result
            (self.new ≡ walked.hoist self.old route.now.passed.items route.now.target
            (named_by node.entry.node.now row is_pure name.entry.node.now)) }
        ensures goes { Goes self.old self.new }
    {
        let declaration = Declaration::new(node, name, row, is_pure);
        self.hoist(route, &declaration)
    }

    /// The node declares the name as a function of a block, which moves to the target (ECMAScript, Annex B.3.2).
    pub(crate) fn move_function(
        &mut self,
        node: AstKind<'a>,
        name: AstKind<'a>,
        block: ScopeId,
        target: ScopeId,
        row: Row,
        is_pure: bool,
    ) -> Result<(), AllocError>
        requires block { block < length self.old.tables.scopes }
        requires target { target < length self.old.tables.scopes }
        requires room { length self.old.tables.symbols < u32.MAX }
        ensures made { OnOk result
            (self.new ≡ walked.declare_and_move self.old block target
            (named_by node.entry.node.now row is_pure name.entry.node.now)) }
        ensures goes { Goes self.old self.new }
    {
        let declaration = Declaration::new(node, name, row, is_pure);
        self.declare_and_move(block, target, &declaration)
    }
}
