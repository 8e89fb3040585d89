//! What each node declares, and where: the scope of LexicallyDeclaredNames or that of VarDeclaredNames (ECMAScript
//! 14.2.1).

ghost use Rattle.std.specs.Prelude.{◌≡◌, ◌<◌, ◌≤◌, ◌+◌, List, [], ◌∷◌, true, false, cond, length, map, flat_map, OnOk};
ghost use Rattle.semantic_kinds.specs.declared.kind.AstType.TheVariants.{FormalParameters as formal_parameters, BindingRestElement as rest_element, TSNamespaceDeclaration as namespace_declaration, TSTypeParameter as type_parameter};
ghost use Rattle.semantic_kinds.specs.declared.role.Role.TheVariants.{Pattern as pattern_role, Id as id_role, Name as name_role, Local as local_role};
ghost use Rattle.semantic_kinds.specs.declared.mark.Mark.TheVariants.{Pure as pure_mark};
ghost use Rattle.semantic_syntax.specs.declared.scope_flags.TheConstants.ScopeFlags as scope;
ghost use Rattle.semantic_tree.specs.Views.{all_in, is, has};
ghost use Rattle.table_building.specs.Named.{named_by};
ghost use Rattle.semantic_model.specs.Names.{bound_names, names_at};
ghost use Rattle.table_building.specs.Each.{declare_patterns, declare_members};
ghost use Rattle.semantic_model.specs.Place.{Place, OpenScope, parent_holds};
ghost use Rattle.semantic_model.specs.Declaration.{Declaration};
ghost use Rattle.semantic_model.specs.Event.{declares_all};
ghost use Rattle.semantic_model.specs.Fold.{State};
ghost use Rattle.semantic_model.specs.Hoist.{run};
ghost use Rattle.semantic_model.specs.Step.{entering};
ghost use Rattle.semantic_model.specs.Binder.{declaration_at, is_statement, variables_under, function_row, own_function_row, parameters_under, import_declarations, member_names, declared_on_entering, declared_on_opening};
ghost use Rattle.walk_model.specs.Shown.{ShowsChain, HasVar};
ghost use Rattle.walk_model.specs.NamedScopes.{IsStepNamed};
ghost use Rattle.walk_model.specs.Walks.{act_all};
ghost use Rattle.semantic_walk.specs.Paths.{parent_in};
ghost use Rattle.semantic_walk.specs.Stated.{IsStated};
ghost use Rattle.semantic_walk.specs.AtPlace.{IsWithin, IsShown};
ghost use Rattle.semantic_walk.specs.Folded.{ShowsFold};
ghost use Rattle.semantic_walk.specs.Ids.{under, HasIds};
ghost use Rattle.semantic_walk.specs.Binds.{is_bound_inside, declaring, declaring_past, hoisting, moving_one, moving, acting};
ghost use Rattle.table_building.specs.Growth.{Goes};

use crate::block_target::target_of_function;
use crate::walk::Walk;
use namespace_states::namespace_row::namespace_row;
use node_rules::bound_identifiers::{BoundIdentifiers, bound_identifiers};
use node_rules::rows::{self, Row};
use semantic_syntax::ScopeFlags;
use semantic_tree::{AstKind, AstType, Mark, Role};
use std::alloc::AllocError;
use table_building::route::Route;

/// A node that may declare names.
pub trait Binder<'a> {
    /// Declares what the node declares, by its binder row, in the scope where the walk stands. For want of memory, or of
    /// ids for the names of a node that is none of the walk's program, the walk is given up.
    fn bind(&self, walk: &mut Walk<'a>) -> Result<(), AllocError>
        ensures { OnOk result (Goes walk.old.made walk.new.made) };
}

impl<'a> Binder<'a> for AstKind<'a> {
    fn bind(&self, walk: &mut Walk<'a>) -> Result<(), AllocError>
        ensures goes { OnOk result (Goes walk.old.made walk.new.made) }
        ensures entering { (ds : List Declaration) (p : Place) → p.node ≡ self.now.node.now
            → is_bound_inside p.node ≡ false → IsWithin walk.old p p.chain → IsShown ds walk.old p →
            OnOk result (walk.new
            ≡ record walk.old {
              made = act_all walk.old.made (declares_all ds (declared_on_entering p));
            }) }
        ensures opening { (ds : List Declaration) (p : Place) (own : OpenScope)
            → p.node ≡ self.now.node.now → is_bound_inside p.node ≡ true
            → IsWithin walk.old p (own ∷ []) →
            OnOk result (walk.new
            ≡ record walk.old {
              made = act_all walk.old.made (declares_all ds (declared_on_opening p own));
            }) }
        ensures folds { (ds : List Declaration) (p : Place) (st : State)
            → p.node ≡ self.now.node.now → is_bound_inside p.node ≡ false
            → IsWithin walk.old p p.chain → IsShown ds walk.old p → ShowsFold walk.old.made st →
            OnOk result (ShowsFold walk.new.made
            (run st (declares_all ds (declared_on_entering p)))) }
        ensures folds_inside { (ds : List Declaration) (p : Place) (own : OpenScope) (st : State)
            → p.node ≡ self.now.node.now → is_bound_inside p.node ≡ true
            → IsWithin walk.old p (own ∷ []) → ShowsFold walk.old.made st →
            OnOk result (ShowsFold walk.new.made
            (run st (declares_all ds (declared_on_opening p own)))) }
    {
        if walk.has_ids(*self) {
            walk.bind_node(*self)
        } else {
            Err(AllocError)
        }
    }
}

#[tactic(auto, using(crate::proofs::Going::going))]
impl<'a> Walk<'a> {
    /// Whether there are ids for all names that the node may declare.
    fn has_ids(&self, kind: AstKind<'_>) -> bool
        ensures ids { result ≡ true → HasIds self.now kind.entry.node.now }
        ensures stands { self.now.current < length self.now.made.tables.scopes }
    {
        let symbols = self.declared.scoping().symbols_len() as u32;
        kind.node().room_after(u32::MAX - symbols).is_some()
    }

    /// Declares what the node declares, by its binder row. On a walk over a program there are ids for its names.
    pub(crate) fn bind_node(&mut self, kind: AstKind<'a>) -> Result<(), AllocError>
        requires { HasIds self.old kind.node.now }
        ensures goes { OnOk result (Goes self.old.made self.new.made) }
        ensures entering { (ds : List Declaration) (p : Place) → p.node ≡ kind.entry.node.now
            → is_bound_inside p.node ≡ false → IsWithin self.old p p.chain → IsShown ds self.old p →
            OnOk result (self.new ≡ acting ds self.old (declared_on_entering p)) }
        ensures opening { (ds : List Declaration) (p : Place) (own : OpenScope)
            → p.node ≡ kind.entry.node.now → is_bound_inside p.node ≡ true
            → IsWithin self.old p (own ∷ []) →
            OnOk result (self.new ≡ acting ds self.old (declared_on_opening p own)) }
    {
        match kind.ty() {
            AstType::VariableDeclarator => self.bind_variables(kind),
            AstType::Class => self.bind_names(kind, rows::class_row(kind), false),
            AstType::Function => self.bind_function(kind),
            AstType::FormalParameter | AstType::FormalParameterRest => self.bind_parameter(kind),
            AstType::BindingRestElement => self.bind_rest(kind),
            AstType::CatchParameter => self.bind_caught(kind),
            AstType::ImportSpecifier
            | AstType::ImportDefaultSpecifier
            | AstType::ImportNamespaceSpecifier => self.bind_import(kind),
            AstType::TSImportEqualsDeclaration => self.bind_names(
                kind,
                rows::import_equals_row(),
                false,
            ),
            AstType::TSTypeAliasDeclaration => self.bind_names(
                kind,
                rows::type_alias_row(kind),
                false,
            ),
            AstType::TSInterfaceDeclaration => self.bind_names(
                kind,
                rows::interface_row(kind),
                false,
            ),
            AstType::TSEnumDeclaration => self.bind_names(kind, rows::enum_row(kind), false),
            AstType::TSEnumMember => self.bind_member(kind),
            AstType::TSNamespaceDeclaration => self.bind_namespace(kind),
            AstType::TSTypeParameter => self.bind_type_parameter(kind),
            AstType::TSMappedType => self.bind_at(kind, Role::Key, rows::type_parameter_row()),
            _ => Ok(()),
        }
    }

    /// Declares all that the node binds, in the current scope, as free of side effects or not.
    fn bind_names(&mut self, node: AstKind<'a>, row: Row, is_pure: bool) -> Result<(), AllocError>
        requires { length self.old.made.tables.symbols + length (bound_names node.node.now)
            ≤ u32.MAX }
        ensures made { OnOk result (self.new
            ≡ declaring self.old
            (map (named_by node.entry.node.now row is_pure) (bound_names node.entry.node.now))) }
        ensures goes { OnOk result (Goes self.old.made self.new.made) }
    {
        self.declared
            .declare_names(node, node, self.current_scope, row, is_pure)
    }

    /// Declares the names under one role of the node, in the current scope.
    fn bind_at(&mut self, node: AstKind<'a>, role: Role, row: Row) -> Result<(), AllocError>
        requires { length self.old.made.tables.symbols + length (names_at role node.node.now)
            ≤ u32.MAX }
        ensures made { OnOk result (self.new
            ≡ declaring self.old
            (map (named_by node.entry.node.now row false) (names_at role node.entry.node.now))) }
        ensures goes { OnOk result (Goes self.old.made self.new.made) }
    {
        self.declared
            .declare_under(node, role, self.current_scope, row)
    }

    /// Whether the node that is visited stands directly under one of the kind.
    pub(crate) fn stands_under(&self, kind: AstType) -> bool
        ensures { result ≡ parent_holds (is kind) (parent_in self.now.path) }
    {
        match self.parent() {
            Some(parent) => parent.ty() == kind,
            None => false,
        }
    }

    /// A declarator: a `var` goes out to the nearest function (ECMAScript 8.2.7, VarScopedDeclarations), the other
    /// kinds stay.
    fn bind_variables(&mut self, declarator: AstKind<'a>) -> Result<(), AllocError>
        requires { length self.old.made.tables.symbols + length
            (under (parent_in self.old.path) (bound_names declarator.node.now)) ≤ u32.MAX }
        ensures made { (ds : List Declaration) (p : Place) → p.node ≡ declarator.entry.node.now
            → IsWithin self.old p p.chain → ShowsChain self.old.made.tables p.chain
            → HasVar p.chain →
            OnOk result (self.new ≡ acting ds self.old (variables_under p.path p)) }
        ensures goes { OnOk result (Goes self.old.made self.new.made) }
    {
        match self.parent() {
            Some(declaration) => self.bind_variables_of(declarator, declaration),
            None => Ok(()),
        }
    }

    /// A declarator of the declaration, whose word says whether it is a `var` (ECMAScript 14.3.2) or lexical
    /// (14.3.1).
    fn bind_variables_of(
        &mut self,
        declarator: AstKind<'a>,
        declaration: AstKind<'a>,
    ) -> Result<(), AllocError>
        requires { length self.old.made.tables.symbols + length (bound_names declarator.node.now)
            ≤ u32.MAX }
        ensures made { (ds : List Declaration) (p : Place) → p.node ≡ declarator.entry.node.now
            → IsWithin self.old p p.chain → ShowsChain self.old.made.tables p.chain → HasVar p.chain
            → declaration.entry.node.now ∷ [] ≡ parent_in self.old.path →
            OnOk result (self.new ≡ acting ds self.old (variables_under p.path p)) }
        ensures goes { OnOk result (Goes self.old.made self.new.made) }
    {
        let is_pure = rows::is_pure_declarator(declarator);
        if rows::is_var_declaration(declaration) {
            self.bind_var(declarator, rows::var_row(declaration), is_pure)
        } else {
            self.bind_names(declarator, rows::lexical_row(declaration), is_pure)
        }
    }

    /// The variables of a `var` declarator, which go out to the nearest function, static block, module block or the
    /// program (ECMAScript 8.2.7, VarScopedDeclarations).
    fn bind_var(
        &mut self,
        declarator: AstKind<'a>,
        row: Row,
        is_pure: bool,
    ) -> Result<(), AllocError>
        requires { length self.old.made.tables.symbols + length (bound_names declarator.node.now)
            ≤ u32.MAX }
        ensures made { OnOk result (self.new
            ≡ hoisting self.old scope.Var.bits
            (map (named_by declarator.entry.node.now row is_pure)
            (bound_names declarator.entry.node.now))) }
        ensures goes { OnOk result (Goes self.old.made self.new.made) }
    {
        let route = Route::outward(
            self.alloc,
            self.declared.scoping(),
            self.current_scope,
            ScopeFlags::Var,
        )?;
        self.declared
            .hoist_names(declarator, declarator, &route, row, is_pure)
    }

    /// A function: a plain one in a block of sloppy JavaScript may move out of its block (ECMAScript, Annex B.3.2,
    /// sec-block-level-function-declarations-web-legacy-compatibility-semantics).
    fn bind_function(&mut self, function: AstKind<'a>) -> Result<(), AllocError>
        requires { length self.old.made.tables.symbols + length (bound_names function.node.now)
            ≤ u32.MAX }
        ensures entering { (ds : List Declaration) (p : Place) → p.node ≡ function.entry.node.now
            → is_statement p.node ≡ true → IsWithin self.old p p.chain
            → ShowsChain self.old.made.tables p.chain → HasVar p.chain
            → IsStepNamed ds self.old.namesakes (entering p) →
            OnOk result (self.new
            ≡ acting ds self.old
            (map (declaration_at p.node (function_row p) (has pure_mark p.node))
            (bound_names p.node))) }
        ensures opening { (ds : List Declaration) (p : Place) (own : OpenScope)
            → p.node ≡ function.entry.node.now → is_statement p.node ≡ false
            → IsWithin self.old p (own ∷ []) →
            OnOk result (self.new
            ≡ acting ds self.old
            (map (declaration_at p.node (own_function_row p own) (has pure_mark p.node))
            (bound_names p.node))) }
        ensures goes { OnOk result (Goes self.old.made self.new.made) }
    {
        let flags = self.scope_flags();
        let row = rows::function_row(function, self.parent(), self.source_type, flags);
        let is_pure = function.has_mark(Mark::Pure);
        if rows::may_move(function, self.source_type, flags) {
            self.bind_block_function(function, row, is_pure)
        } else {
            self.bind_names(function, row, is_pure)
        }
    }

    /// A plain function in a block of sloppy JavaScript: its names (ECMAScript, Annex B.3.2).
    fn bind_block_function(
        &mut self,
        function: AstKind<'a>,
        row: Row,
        is_pure: bool,
    ) -> Result<(), AllocError>
        requires { length self.old.made.tables.symbols + length (bound_names function.node.now)
            ≤ u32.MAX }
        ensures made { OnOk result (self.new
            ≡ moving self.old (map (named_by function.entry.node.now row is_pure)
            (bound_names function.entry.node.now))) }
        ensures goes { OnOk result (Goes self.old.made self.new.made) }
    {
        let names = bound_identifiers(self.alloc, function)?;
        self.bind_block_names(function, &names, row, is_pure)
    }

    /// The names of such a function.
    fn bind_block_names(
        &mut self,
        function: AstKind<'a>,
        names: &BoundIdentifiers<'a>,
        row: Row,
        is_pure: bool,
    ) -> Result<(), AllocError>
        requires { length self.old.made.tables.symbols + length names.now ≤ u32.MAX }
        ensures made { OnOk result (self.new
            ≡ moving self.old (map (named_by function.entry.node.now row is_pure) names.now)) }
        ensures goes { OnOk result (Goes self.old.made self.new.made) }
    {
        for name in names.iter() {
            self.bind_block_name(function, name, row, is_pure)?;
        }
        Ok(())
    }

    /// The name of such a function, which moves to its target, if it has one.
    fn bind_block_name(
        &mut self,
        function: AstKind<'a>,
        name: AstKind<'a>,
        row: Row,
        is_pure: bool,
    ) -> Result<(), AllocError>
        requires { length self.old.made.tables.symbols < u32.MAX }
        ensures made { OnOk result (self.new
            ≡ moving_one self.old
            (named_by function.entry.node.now row is_pure name.entry.node.now)) }
        ensures goes { OnOk result (Goes self.old.made self.new.made) }
    {
        let target = target_of_function(
            self.alloc,
            &mut self.namesakes,
            self.declared.scoping(),
            self.current_scope,
            name.text(),
        )?;
        self.declared
            .declare_block_function(function, name, self.current_scope, target, row, is_pure)
    }

    /// A parameter, of the list that is its parent (ECMAScript 15.1.1).
    fn bind_parameter(&mut self, parameter: AstKind<'a>) -> Result<(), AllocError>
        requires { length self.old.made.tables.symbols + length
            (under (parent_in self.old.path) (bound_names parameter.node.now)) ≤ u32.MAX }
        ensures made { (ds : List Declaration) (p : Place) → p.node ≡ parameter.entry.node.now
            → IsWithin self.old p p.chain → ShowsChain self.old.made.tables p.chain
            → HasVar p.chain →
            OnOk result (self.new ≡ acting ds self.old (parameters_under p.path p)) }
        ensures goes { OnOk result (Goes self.old.made self.new.made) }
    {
        match self.parent() {
            Some(list) => self.bind_parameter_of(parameter, list),
            None => Ok(()),
        }
    }

    /// A parameter of the list, which is simple or not (ECMAScript 15.1.3, IsSimpleParameterList).
    fn bind_parameter_of(
        &mut self,
        parameter: AstKind<'a>,
        list: AstKind<'a>,
    ) -> Result<(), AllocError>
        requires { length self.old.made.tables.symbols + length (bound_names parameter.node.now)
            ≤ u32.MAX }
        ensures made { (ds : List Declaration) (p : Place) → p.node ≡ parameter.entry.node.now
            → IsWithin self.old p p.chain → ShowsChain self.old.made.tables p.chain → HasVar p.chain
            → list.entry.node.now ∷ [] ≡ parent_in self.old.path →
            OnOk result (self.new ≡ acting ds self.old (parameters_under p.path p)) }
        ensures goes { OnOk result (Goes self.old.made self.new.made) }
    {
        let is_simple = self.path.is_in_simple(list);
        let row = rows::parameter_row(list, is_simple, self.scope_flags());
        self.bind_names(parameter, row, false)
    }

    /// A rest element, which declares only directly in a list of parameters: one in a pattern is declared with it.
    fn bind_rest(&mut self, rest: AstKind<'a>) -> Result<(), AllocError>
        requires { length self.old.made.tables.symbols + length
            (cond (parent_holds (is formal_parameters) (parent_in self.old.path))
            (bound_names rest.node.now) []) ≤ u32.MAX }
        ensures made { (ds : List Declaration) (p : Place) → p.node ≡ rest.entry.node.now
            → IsWithin self.old p p.chain → p.node.kind ≡ rest_element →
            OnOk result (self.new ≡ acting ds self.old (declared_on_entering p)) }
        ensures goes { OnOk result (Goes self.old.made self.new.made) }
    {
        if self.stands_under(AstType::FormalParameters) {
            self.bind_names(rest, rows::rest_row(), false)
        } else {
            Ok(())
        }
    }

    /// The BoundNames of a catch clause's parameter (ECMAScript 14.15.2, CatchClauseEvaluation).
    fn bind_caught(&mut self, parameter: AstKind<'a>) -> Result<(), AllocError>
        requires { length self.old.made.tables.symbols + length
            (flat_map bound_names (all_in pattern_role parameter.node.now)) ≤ u32.MAX }
        ensures made { OnOk result (self.new
            ≡ record self.old {
              made = declare_patterns self.old.made self.old.current parameter.entry.node.now
                  (all_in pattern_role parameter.entry.node.now);
            }) }
        ensures goes { OnOk result (Goes self.old.made self.new.made) }
    {
        self.declared
            .declare_catch_names(parameter, self.current_scope)
    }

    /// The local name of an import (ECMAScript 16.2.2.1).
    fn bind_import(&mut self, specifier: AstKind<'a>) -> Result<(), AllocError>
        requires { length self.old.made.tables.symbols + length
            (names_at local_role specifier.node.now) ≤ u32.MAX }
        ensures made { (ds : List Declaration) (p : Place) → p.node ≡ specifier.entry.node.now
            → IsWithin self.old p p.chain →
            OnOk result (self.new ≡ acting ds self.old (import_declarations p)) }
        ensures goes { OnOk result (Goes self.old.made self.new.made) }
    {
        let row = rows::import_row(specifier, self.parent());
        self.bind_at(specifier, Role::Local, row)
    }

    /// A member of an enum, which is bound in the enum's body.
    fn bind_member(&mut self, member: AstKind<'a>) -> Result<(), AllocError>
        requires { length self.old.made.tables.symbols + length
            (flat_map member_names (all_in id_role member.node.now)) ≤ u32.MAX }
        ensures made { OnOk result (self.new
            ≡ record self.old {
              made = declare_members self.old.made self.old.current member.entry.node.now
                  (all_in id_role member.entry.node.now);
            }) }
        ensures goes { OnOk result (Goes self.old.made self.new.made) }
    {
        self.declared.declare_member(member, self.current_scope)
    }

    /// A namespace: one that is nothing but types is no value (TypeScript's `getModuleInstanceState`).
    fn bind_namespace(&mut self, namespace: AstKind<'a>) -> Result<(), AllocError>
        requires { length self.old.made.tables.symbols + length (bound_names namespace.node.now)
            ≤ u32.MAX }
        ensures made { (ds : List Declaration) (p : Place) → p.node ≡ namespace.entry.node.now
            → IsWithin self.old p p.chain → p.node.kind ≡ namespace_declaration
            → IsStated self.old.states p →
            OnOk result (self.new ≡ acting ds self.old (declared_on_entering p)) }
        ensures goes { OnOk result (Goes self.old.made self.new.made) }
    {
        let state = self.states.state(namespace.node_id());
        self.bind_names(namespace, namespace_row(namespace, state), false)
    }

    /// A type parameter, of a list or of `infer` (TypeScript's `bindTypeParameter`).
    fn bind_type_parameter(&mut self, parameter: AstKind<'a>) -> Result<(), AllocError>
        requires { length self.old.made.tables.symbols + length
            (names_at name_role parameter.node.now) ≤ u32.MAX }
        ensures made { (ds : List Declaration) (p : Place) → p.node ≡ parameter.entry.node.now
            → IsWithin self.old p p.chain → ShowsChain self.old.made.tables p.chain → HasVar p.chain
            → p.node.kind ≡ type_parameter →
            OnOk result (self.new ≡ acting ds self.old (declared_on_entering p)) }
        ensures goes { OnOk result (Goes self.old.made self.new.made) }
    {
        let row = rows::type_parameter_row();
        if self.stands_under(AstType::TSInferType) {
            self.bind_inferred(parameter, row)
        } else {
            self.bind_at(parameter, Role::Name, row)
        }
    }

    /// A type parameter that `infer` declares goes out to the conditional type (TypeScript's
    /// `getInferTypeContainer`).
    fn bind_inferred(&mut self, parameter: AstKind<'a>, row: Row) -> Result<(), AllocError>
        requires { length self.old.made.tables.symbols + length
            (names_at name_role parameter.node.now) ≤ u32.MAX }
        ensures made { OnOk result (self.new
            ≡ declaring_past self.old scope.TsConditional.bits
            (map (named_by parameter.entry.node.now row false)
            (names_at name_role parameter.entry.node.now))) }
        ensures goes { OnOk result (Goes self.old.made self.new.made) }
    {
        let route = Route::outward(
            self.alloc,
            self.declared.scoping(),
            self.current_scope,
            ScopeFlags::TsConditional,
        )?;
        self.declared
            .declare_under(parameter, Role::Name, route.target, row)
    }
}
