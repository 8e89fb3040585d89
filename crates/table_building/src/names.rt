//! Declarations of all the names of a node.

ghost use Rattle.std.specs.Prelude.{◌≡◌, ◌==◌, ◌<◌, ◌≤◌, ◌+◌, [], false, length, map, flat_map, filter, IfSome, OnOk};
ghost use Rattle.semantic_kinds.specs.declared.kind.AstType.TheVariants.{TemplateElement as template_element};
ghost use Rattle.semantic_kinds.specs.declared.role.Role.TheVariants.{Pattern as pattern_role, Id as id_role, Quasis as quasis_role};
ghost use Rattle.semantic_syntax.specs.Reading.{bindings_of};
ghost use Rattle.semantic_syntax.specs.Writing.{bindings_taken_over};
ghost use Rattle.semantic_tree.specs.Views.{all_in, is};
ghost use Rattle.semantic_model.specs.Names.{bound_names, names_at};
ghost use Rattle.semantic_model.specs.Binder.{member_names};
ghost use Rattle.walk_model.specs.Declares.{declare, declare_anew};
ghost use Rattle.table_building.specs.Growth.{Goes};
ghost use Rattle.table_building.specs.Routes.{IsRoute};
ghost use Rattle.table_building.specs.Named.{named_by, member_naming, caught_naming};
ghost use Rattle.table_building.specs.Each as each;

use crate::declaration::Declaration;
use crate::declared::Declared;
use crate::route::Route;
use node_rules::bound_identifiers::{BoundIdentifiers, bound_identifiers};
use node_rules::rows::{Row, catch_pattern_row, caught_row, member_row};
use semantic_syntax::ScopeId;
use semantic_tree::{AstKind, AstType, Role};
use std::alloc::AllocError;

#[tactic(auto, using(crate::proofs::Growing::growing))]
impl<'a> Declared<'a> {
    /// The node declares the names that a part of it binds in the scope.
    pub fn declare_names(
        &mut self,
        node: AstKind<'a>,
        part: AstKind<'a>,
        scope: ScopeId,
        row: Row,
        is_pure: bool,
    ) -> Result<(), AllocError>
        requires scope { scope < length self.old.tables.scopes }
        requires room { length self.old.tables.symbols + length (bound_names part.node.now)
            ≤ u32.MAX }
        ensures made { OnOk result
            (self.new ≡ each.declare_each self.old scope
            (map (named_by node.entry.node.now row is_pure) (bound_names part.entry.node.now))) }
        ensures goes { Goes self.old self.new }
    {
        let names = bound_identifiers(self.alloc, part)?;
        self.declare_listed(node, &names, scope, row, is_pure)
    }

    /// The node declares the listed names in the scope.
    fn declare_listed(
        &mut self,
        node: AstKind<'a>,
        names: &BoundIdentifiers<'a>,
        scope: ScopeId,
        row: Row,
        is_pure: bool,
    ) -> Result<(), AllocError>
        requires scope { scope < length self.old.tables.scopes }
        requires room { length self.old.tables.symbols + length names.now ≤ u32.MAX }
        ensures made { OnOk result
            (self.new ≡ each.declare_each self.old scope
            (map (named_by node.entry.node.now row is_pure) names.now)) }
        ensures goes { Goes self.old self.new }
    {
        for name in names.iter() {
            self.declare_name(node, name, scope, row, is_pure)?;
        }
        Ok(())
    }

    /// The node declares the names that its children in the role bind in the scope.
    pub fn declare_under(
        &mut self,
        node: AstKind<'a>,
        role: Role,
        scope: ScopeId,
        row: Row,
    ) -> Result<(), AllocError>
        requires scope { scope < length self.old.tables.scopes }
        requires room { length self.old.tables.symbols + length (names_at role node.node.now)
            ≤ u32.MAX }
        ensures made { OnOk result
            (self.new ≡ each.declare_each self.old scope
            (map (named_by node.entry.node.now row false) (names_at role node.entry.node.now))) }
        ensures goes { Goes self.old self.new }
    {
        for part in node.children(role) {
            self.declare_names(node, part, scope, row, false)?;
        }
        Ok(())
    }

    /// The node declares the names that a part of it binds as `var` variables (ECMAScript 8.2.6, VarDeclaredNames).
    pub fn hoist_names(
        &mut self,
        node: AstKind<'a>,
        part: AstKind<'a>,
        route: &Route,
        row: Row,
        is_pure: bool,
    ) -> Result<(), AllocError>
        requires route { IsRoute (length self.old.tables.scopes) route.now }
        requires room { length self.old.tables.symbols + length (bound_names part.node.now)
            ≤ u32.MAX }
        ensures made { OnOk result
            (self.new ≡ each.hoist_each self.old route.now.passed.items route.now.target
            (map (named_by node.entry.node.now row is_pure) (bound_names part.entry.node.now))) }
        ensures goes { Goes self.old self.new }
    {
        let names = bound_identifiers(self.alloc, part)?;
        self.hoist_listed(node, &names, route, row, is_pure)
    }

    /// The node declares the listed names as `var` variables.
    fn hoist_listed(
        &mut self,
        node: AstKind<'a>,
        names: &BoundIdentifiers<'a>,
        route: &Route,
        row: Row,
        is_pure: bool,
    ) -> Result<(), AllocError>
        requires route { IsRoute (length self.old.tables.scopes) route.now }
        requires room { length self.old.tables.symbols + length names.now ≤ u32.MAX }
        ensures made { OnOk result
            (self.new ≡ each.hoist_each self.old route.now.passed.items route.now.target
            (map (named_by node.entry.node.now row is_pure) names.now)) }
        ensures goes { Goes self.old self.new }
    {
        for name in names.iter() {
            self.hoist_name(node, name, route, row, is_pure)?;
        }
        Ok(())
    }

    /// The node declares the name as a function of a block. It moves to the target, if there is one, else it stays
    /// (ECMAScript, Annex B.3.2).
    pub fn declare_block_function(
        &mut self,
        node: AstKind<'a>,
        name: AstKind<'a>,
        block: ScopeId,
        target: Option<ScopeId>,
        row: Row,
        is_pure: bool,
    ) -> Result<(), AllocError>
        requires block { block < length self.old.tables.scopes }
        requires target { IfSome target (λ s. s < length self.old.tables.scopes) }
        requires room { length self.old.tables.symbols < u32.MAX }
        ensures made { OnOk result
            (self.new ≡ each.settle_in_block self.old block target
            (named_by node.entry.node.now row is_pure name.entry.node.now)) }
        ensures goes { Goes self.old self.new }
    {
        match target {
            Some(target) => self.move_function(node, name, block, target, row, is_pure),
            None => self.declare_name(node, name, block, row, is_pure),
        }
    }

    /// The catch clause declares a plain name, which is always new (ECMAScript 14.15.2, CatchClauseEvaluation).
    fn declare_caught_name(
        &mut self,
        parameter: AstKind<'a>,
        name: AstKind<'a>,
        scope: ScopeId,
    ) -> Result<(), AllocError>
        requires scope { scope < length self.old.tables.scopes }
        requires room { length self.old.tables.symbols < u32.MAX }
        ensures made { OnOk result
            (self.new ≡ declare_anew self.old scope
            (caught_naming parameter.entry.node.now name.entry.node.now)) }
        ensures goes { Goes self.old self.new }
    {
        let declaration = Declaration::new(parameter, name, caught_row(), false);
        self.declare_anew(scope, &declaration)
    }

    /// A catch clause declares a plain name, which is always new, or the names of a pattern, which are lexical
    /// (ECMAScript 14.15.1).
    fn declare_caught_pattern(
        &mut self,
        parameter: AstKind<'a>,
        pattern: AstKind<'a>,
        scope: ScopeId,
    ) -> Result<(), AllocError>
        requires scope { scope < length self.old.tables.scopes }
        requires room { length self.old.tables.symbols + length (bound_names pattern.node.now)
            ≤ u32.MAX }
        ensures made { OnOk result
            (self.new ≡ each.declare_pattern self.old scope parameter.entry.node.now
            pattern.entry.node.now) }
        ensures goes { Goes self.old self.new }
    {
        if pattern.ty() == AstType::BindingIdentifier {
            self.declare_caught_name(parameter, pattern, scope)
        } else {
            self.declare_names(parameter, pattern, scope, catch_pattern_row(), false)
        }
    }

    /// A catch clause declares the BoundNames of its parameter (ECMAScript 14.15.2).
    pub fn declare_catch_names(
        &mut self,
        parameter: AstKind<'a>,
        scope: ScopeId,
    ) -> Result<(), AllocError>
        requires scope { scope < length self.old.tables.scopes }
        requires room { length self.old.tables.symbols + length
            (flat_map bound_names (all_in pattern_role parameter.node.now)) ≤ u32.MAX }
        ensures made { OnOk result
            (self.new ≡ each.declare_patterns self.old scope parameter.entry.node.now
            (all_in pattern_role parameter.entry.node.now)) }
        ensures goes { Goes self.old self.new }
    {
        for pattern in parameter.children(Role::Pattern) {
            self.declare_caught_pattern(parameter, pattern, scope)?;
        }
        Ok(())
    }

    /// What the clause's scope binds is bound by its body's, which binds nothing yet: so a lexical declaration of the
    /// body conflicts with it (ECMAScript 14.15.1; TypeScript 2492).
    pub fn take_over(&mut self, clause: ScopeId, body: ScopeId) -> Result<(), AllocError>
        requires clause { clause < length self.old.tables.scopes }
        requires body { body < length self.old.tables.scopes }
        requires apart { (clause == body) ≡ false }
        requires empty { bindings_of self.old.tables body ≡ [] }
        ensures made { OnOk result
            (self.new
            ≡ record self.old { tables = bindings_taken_over self.old.tables clause body }) }
        ensures goes { Goes self.old self.new }
    {
        self.scoping.take_over_bindings(clause, body)?;
        Ok(())
    }

    /// A member of an enum declares the name that another node has as its text.
    fn declare_member_name(
        &mut self,
        member: AstKind<'a>,
        id: AstKind<'a>,
        named: AstKind<'a>,
        scope: ScopeId,
    ) -> Result<(), AllocError>
        requires scope { scope < length self.old.tables.scopes }
        requires room { length self.old.tables.symbols < u32.MAX }
        ensures made { OnOk result
            (self.new ≡ declare self.old scope
            (member_naming member.entry.node.now id.entry.node.now named.entry.node.now)) }
        ensures goes { Goes self.old self.new }
    {
        let declaration = Declaration::of_member(member, id, named, member_row());
        self.declare(scope, &declaration)
    }

    /// A member of an enum declares the pieces of the template that is its id.
    fn declare_pieces(
        &mut self,
        member: AstKind<'a>,
        id: AstKind<'a>,
        scope: ScopeId,
    ) -> Result<(), AllocError>
        requires scope { scope < length self.old.tables.scopes }
        requires room { length self.old.tables.symbols + length
            (filter (is template_element) (all_in quasis_role id.node.now)) ≤ u32.MAX }
        ensures made { OnOk result
            (self.new ≡ each.declare_each self.old scope
            (map (member_naming member.entry.node.now id.entry.node.now)
            (filter (is template_element) (all_in quasis_role id.entry.node.now)))) }
        ensures goes { Goes self.old self.new }
    {
        for piece in id.children(Role::Quasis) {
            if piece.ty() == AstType::TemplateElement {
                self.declare_member_name(member, id, piece, scope)?;
            }
        }
        Ok(())
    }

    /// A member of an enum declares the name in its id: the id's text, or the text of the template that it is.
    fn declare_member_id(
        &mut self,
        member: AstKind<'a>,
        id: AstKind<'a>,
        scope: ScopeId,
    ) -> Result<(), AllocError>
        requires scope { scope < length self.old.tables.scopes }
        requires room { length self.old.tables.symbols + length (member_names id.node.now)
            ≤ u32.MAX }
        ensures made { OnOk result
            (self.new ≡ each.declare_each self.old scope
            (map (member_naming member.entry.node.now id.entry.node.now)
            (member_names id.entry.node.now))) }
        ensures goes { Goes self.old self.new }
    {
        match id.ty() {
            AstType::IdentifierName | AstType::StringLiteral => {
                self.declare_member_name(member, id, id, scope)
            }
            AstType::TemplateLiteral => self.declare_pieces(member, id, scope),
            _ => Ok(()),
        }
    }

    /// A member of an enum declares its name, which is its id's text.
    pub fn declare_member(&mut self, member: AstKind<'a>, scope: ScopeId) -> Result<(), AllocError>
        requires scope { scope < length self.old.tables.scopes }
        requires room { length self.old.tables.symbols + length
            (flat_map member_names (all_in id_role member.node.now)) ≤ u32.MAX }
        ensures made { OnOk result
            (self.new ≡ each.declare_members self.old scope member.entry.node.now
            (all_in id_role member.entry.node.now)) }
        ensures goes { Goes self.old self.new }
    {
        for id in member.children(Role::Id) {
            self.declare_member_id(member, id, scope)?;
        }
        Ok(())
    }
}
