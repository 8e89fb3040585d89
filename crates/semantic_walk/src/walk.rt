//! The walker's state, and what each step of the walk does to it.

ghost use Rattle.std.specs.Prelude.{◌≡◌, ◌==◌, ◌&&◌, ◌<◌, ◌≤◌, ◌-◌, List, [], ◌∷◌, ◌++◌, true, false, codes, cond, length, map, option_map, take, drop, IfSome, IfOk, OnOk, OnErr};
ghost use Rattle.std.specs.Str.{chars};
ghost use Rattle.semantic_kinds.specs.declared.kind.AstType.TheVariants.{IdentifierReference as identifier_reference, CatchClause as catch_clause};
ghost use Rattle.semantic_syntax.specs.Reading.{bindings_of, scope_of};
ghost use Rattle.semantic_kinds.specs.declared.role.Role.TheVariants.{Callee as callee_role};
ghost use Rattle.semantic_tree.specs.Unwrapped.{inner_expression};
ghost use Rattle.semantic_tree.specs.Views.{is, holds, child_of, has_text};
ghost use Rattle.semantic_model.specs.Place.{Place, OpenScope, parent_holds};
ghost use Rattle.semantic_model.specs.Cursor.{on_entering, on_leaving};
ghost use Rattle.semantic_model.specs.Binder.{declared_on_entering, declared_on_opening};
ghost use Rattle.semantic_model.specs.Event.{is_catch_body};
ghost use Rattle.semantic_model.specs.ScopeKind.{opened_scope};
ghost use Rattle.semantic_model.specs.Step.{opening, steps};
ghost use Rattle.semantic_model.specs.TablesOf.{is_direct_eval};
ghost use Rattle.semantic_syntax.specs.Outcome.{header_outcome};
ghost use Rattle.walk_model.specs.Settles.{settle_rest};
ghost use Rattle.walk_model.specs.Shown.{ShowsChain, HasVar};
ghost use Rattle.walk_model.specs.Walks.{after};
ghost use Rattle.walk_model.specs.Opens.{add_eval, close_scope};
ghost use Rattle.semantic_syntax.specs.Counts.{raised};
ghost use Rattle.semantic_syntax.specs.Told.{source_of};
ghost use Rattle.walk_model.specs.Probes.{probes_in_end};
ghost use Rattle.table_building.specs.Settled.{settled_from, probes_from};
ghost use Rattle.node_rules.specs.Seen.{parent_path};
ghost use Rattle.semantic_walk.specs.Paths.{parent_in};
ghost use Rattle.semantic_walk.specs.Walker.{Walker, place_in, stepped_to, referring, opening_in, taking_over, telling_of};
ghost use Rattle.semantic_walk.specs.Listed.{list_kept};
ghost use Rattle.walk_notes.specs.NoteLists.{noting, leaving as leaving_notes};
ghost use Rattle.node_store.specs.Entered.{leaving};
ghost use Rattle.semantic_walk.specs.Stated.{AllStated};
ghost use Rattle.semantic_walk.specs.Begun.{begun, notes_classes, AreNamesOf};
ghost use Rattle.check_walk.specs.SoFar.{caught_up};
ghost use Rattle.check_walk.specs.TellingAlong.{telling_left};
ghost use Rattle.semantic_walk.specs.Ids.{HasIds, MayEnter, MayOpen};
ghost use Rattle.semantic_walk.specs.Leaving.{IsFit, ShowsRows};
ghost use Rattle.table_building.specs.Growth.{Grows, Goes};
ghost use Rattle.semantic_model.specs.Declaration.{Declaration};
ghost use Rattle.semantic_walk.specs.Binds.{block_target, is_bound_inside, acting};
ghost use Rattle.semantic_walk.specs.AtPlace.{ComesTo, IsWithin, IsShown, walked_into, left_at};

use crate::analysis::Analysis;
use crate::doings::Doings;
use crate::on_leaving::tell_leaving;
use crate::path::Path;
use crate::settings::{Room, Settings};
use check_context::{CheckContext, Rules};
use namespace_states::NamespaceStates;
use node_rules::ambient::is_ambient_inside;
use node_rules::cursor;
use node_rules::direct_eval::is_direct_eval;
use node_rules::rows::is_statement;
use node_rules::scope_kind::{flags_of, root_flags};
use semantic_diagnostics::Diagnostics;
use semantic_syntax::{ReferenceFlags, ScopeFlags, ScopeId, SourceType, Steps};
use semantic_tree::{AstKind, AstType, Mark, Program, Role};
use std::alloc::{AllocError, Global};
use std::marker::Model;
use table_building::declared::Declared;
use walk_notes::notes::is_noted;
use walk_notes::{LazyNamesakes, Notes};

/// The walker's state: what the walk has made so far, and where it stands.
#[derive(Drop)]
pub struct Walk<'a> {
    pub(crate) alloc: Global,
    pub(crate) source_type: SourceType,
    /// The states of the program's namespaces.
    pub(crate) states: NamespaceStates,
    pub(crate) declared: Declared<'a>,
    /// Past which declarations block functions don't move, once a block function passes a scope.
    pub(crate) namesakes: LazyNamesakes<'a>,
    /// The nodes from the root to the one that is visited, and all that the walk has entered, if they are kept.
    pub(crate) path: Path<'a>,
    pub(crate) current_scope: ScopeId,
    /// The cursor: the way of the next reference, as the walk stands.
    pub(crate) current_reference_flags: ReferenceFlags,
    /// Whether the code where the walk stands is ambient.
    pub(crate) is_ambient: bool,
    /// The classes, if they are noted, and the labels.
    pub(crate) notes: Notes<'a>,
    /// The source, which checks look at.
    pub(crate) source_text: &'a str,
    /// Whether early errors are told.
    pub(crate) checks: bool,
    /// What is told so far, but for the conflicts from `counted` on.
    pub(crate) said: Diagnostics,
    /// How many conflicts are told.
    pub(crate) counted: usize,
}

impl<'a> Model for Walk<'a> {
    ghost use Rattle.std.specs.Prelude.{◌<◌, length};
    ghost use Rattle.std.specs.Coded.{codes};
    ghost use Rattle.semantic_tree.specs.contracts.node.Node as node;
    ghost use Rattle.semantic_syntax.specs.contracts.node_flags.NodeFlags as eight_flags;
    ghost use Rattle.semantic_diagnostics.specs.contracts.diagnostic.Diagnostic as diagnostic;
    ghost use Rattle.semantic_walk.specs.Walker.{Walker, walker};

    ghost Value = { Walker };

    ghost coded = { Prim.hlevel (codes, node.the_row.coded, eight_flags.the_row.coded, diagnostic.the_row.coded) };

    ghost view = { walker };

    ghost invariant = { λ w. w.current_scope < length w.declared.tables.scopes };
}

/// Whether the node declares in its own scope, which is open then: a function or class expression, and a mapped type
/// (ECMAScript 15.2.5, 15.7.14).
fn declares_inside(kind: AstKind<'_>) -> bool
    ensures inside { result ≡ is_bound_inside kind.entry.node.now }
    ensures entering { (p : Place) → p.node ≡ kind.entry.node.now → result ≡ true
        → declared_on_entering p ≡ [] }
    ensures opening { (p : Place) (own : OpenScope) → p.node ≡ kind.entry.node.now → result ≡ false
        → declared_on_opening p own ≡ [] }
{
    match kind.ty() {
        AstType::Function | AstType::Class => !is_statement(kind),
        AstType::TSMappedType => true,
        _ => false,
    }
}

#[tactic(auto, using(crate::proofs::Going::going))]
impl<'a> Walk<'a> {
    /// The state at the root, whose scope is open. By the settings the nodes that are entered are kept, or not, classes
    /// are noted, or not, and early errors are told, or not.
    pub(crate) fn new(
        alloc: Global,
        program: &'a Program,
        settings: Settings,
    ) -> Result<Walk<'a>, AllocError>
        ensures begins { IfOk result (λ w. w
            ≡ begun program.now w.states w.namesakes settings.build_nodes
            (notes_classes settings) settings.checks) }
        ensures names { IfOk result (λ w. AreNamesOf program.now w.namesakes) }
        ensures states { IfOk result (λ w. AllStated w.states (steps program.now)) }
    {
        let source_type = program.source_type();
        let root = program.root();
        let states = NamespaceStates::of_namespaces(alloc, program)?;
        let declared = Declared::new(alloc, root, root_flags(root, source_type))?;
        Ok(Walk {
            alloc,
            source_type,
            states,
            declared,
            namesakes: LazyNamesakes::new(alloc, program),
            path: Path::new(alloc, settings.build_nodes),
            current_scope: ScopeId::new(0),
            current_reference_flags: ReferenceFlags::empty(),
            is_ambient: source_type.is_typescript_definition(),
            notes: Notes::new(alloc, settings.notes_classes()),
            source_text: program.source_text(),
            checks: settings.checks,
            said: Diagnostics::new(alloc),
            counted: 0,
        })
    }

    /// The parent of the node that is visited.
    pub(crate) fn parent(&self) -> Option<AstKind<'a>>
        ensures { parent_path result ≡ parent_in self.now.path }
    {
        self.path.parent()
    }

    /// The flags of the scope where the walk stands.
    pub(crate) fn scope_flags(&self) -> ScopeFlags
        ensures { result ≡ (scope_of self.now.made.tables self.now.current).flags }
    {
        self.declared.scoping().scope_flags(self.current_scope)
    }

    /// Makes room for what the walk will make. What it has made stays, whatever the answer.
    pub(crate) fn reserve(&mut self, room: Room) -> Result<(), AllocError>
        ensures { self.new ≡ self.old }
    {
        self.path.reserve(room.nodes)?;
        self.declared.reserve(
            room.symbols as usize,
            room.references as usize,
            room.scopes as usize,
        )
    }

    /// Notes what is entered of classes and labels.
    fn note(&mut self, kind: AstKind<'a>) -> Result<(), AllocError>
        ensures made { OnOk result (self.new
            ≡ record self.old {
              notes = noting (parent_in self.old.path) kind.entry.node.now self.old.notes;
            }) }
        ensures goes { OnOk result (Goes self.old.made self.new.made) }
    {
        if is_noted(kind.ty()) {
            let parent = self.parent();
            self.notes.enter(kind, parent)
        } else {
            Ok(())
        }
    }

    /// Notes what is left of a class or a label. This stands apart, as few nodes are that.
    #[inline(never)]
    fn leave_noted(&mut self, kind: AstKind<'a>) -> Result<(), AllocError>
        ensures made { OnOk result (self.new
            ≡ record self.old { notes = leaving_notes kind.entry.node.now self.old.notes }) }
        ensures goes { OnOk result (Goes self.old.made self.new.made) }
    {
        self.notes.leave(kind)
    }

    /// Notes what is left of classes and labels.
    #[inline(always)]
    fn note_behind(&mut self, kind: AstKind<'a>, doings: Doings) -> Result<(), AllocError>
        requires { doings ≡ kind.node.now.kind }
        ensures made { OnOk result (self.new
            ≡ record self.old { notes = leaving_notes kind.entry.node.now self.old.notes }) }
        ensures goes { OnOk result (Goes self.old.made self.new.made) }
    {
        if doings.is_noted_behind() {
            self.leave_noted(kind)
        } else {
            Ok(())
        }
    }

    /// The cursor is that on entering a node of the kind.
    #[inline(always)]
    fn turn_on_entering(&mut self, doings: Doings)
        ensures made { self.new ≡ record self.old { cursor = on_entering doings self.old.cursor } }
        ensures goes { Goes self.old.made self.new.made }
    {
        if doings.moves_cursor() {
            self.current_reference_flags = cursor::on_entering(
                doings.kind(),
                self.current_reference_flags,
            );
        }
    }

    /// The cursor is that on leaving a node of the kind.
    #[inline(always)]
    fn turn_on_leaving(&mut self, doings: Doings)
        ensures made { self.new ≡ record self.old { cursor = on_leaving doings self.old.cursor } }
        ensures goes { Goes self.old.made self.new.made }
    {
        if doings.moves_cursor() {
            self.current_reference_flags = cursor::on_leaving(
                doings.kind(),
                self.current_reference_flags,
            );
        }
    }

    /// Steps to a node: it stands on the path, and the cursor is that on entering it.
    #[tactic(auto, using(crate::proofs::Going::going, table_building::proofs::Growing::growing))]
    #[inline(always)]
    fn step_to(&mut self, kind: AstKind<'a>, doings: Doings) -> Result<(), AllocError>
        requires { doings ≡ kind.node.now.kind }
        ensures made { OnOk result (self.new ≡ stepped_to self.old kind.entry.node.now) }
        ensures goes { OnOk result (Goes self.old.made self.new.made) }
    {
        self.path.push(kind, self.current_scope)?;
        self.turn_on_entering(doings);
        Ok(())
    }

    /// Notes the reference that an identifier reference is.
    fn note_reference(&mut self, kind: AstKind<'a>) -> Result<(), AllocError>
        requires { length self.old.made.tables.references < u32.MAX }
        ensures made { OnOk result (self.new
            ≡ cond (is identifier_reference kind.entry.node.now)
            (referring self.old kind.entry.node.now) self.old) }
        ensures goes { OnOk result (Goes self.old.made self.new.made) }
    {
        if kind.ty() == AstType::IdentifierReference {
            self.refer(kind)
        } else {
            Ok(())
        }
    }

    /// Notes a direct call of `eval` (ECMAScript 13.3.6.1).
    fn note_eval(&mut self, kind: AstKind<'a>)
        ensures made { self.new ≡ cond (is_direct_eval kind.entry.node.now)
            (record self.old { made = add_eval self.old.made self.old.current }) self.old }
        ensures goes { Goes self.old.made self.new.made }
    {
        if is_direct_eval(kind) {
            self.declared.add_direct_eval(self.current_scope);
        }
    }

    /// Declares what the node declares, if it declares inside its own scope, or if it declares outside.
    fn declare(&mut self, kind: AstKind<'a>, inside: bool) -> Result<(), AllocError>
        requires { is_bound_inside kind.node.now ≡ inside → HasIds self.old kind.node.now }
        ensures entering { (ds : List Declaration) (p : Place) → p.node ≡ kind.entry.node.now
            → inside ≡ false → IsWithin self.old p p.chain → IsShown ds self.old p →
            OnOk result (self.new ≡ acting ds self.old (declared_on_entering p)) }
        ensures opening { (ds : List Declaration) (p : Place) (own : OpenScope)
            → p.node ≡ kind.entry.node.now → inside ≡ true → IsWithin self.old p (own ∷ []) →
            OnOk result (self.new ≡ acting ds self.old (declared_on_opening p own)) }
        ensures goes { OnOk result (Goes self.old.made self.new.made) }
    {
        if declares_inside(kind) == inside {
            self.bind_node(kind)
        } else {
            Ok(())
        }
    }

    /// Enters a node: what it declares outside of its own scope is declared, and references, classes and labels are
    /// noted.
    #[inline(always)]
    pub(crate) fn enter(&mut self, kind: AstKind<'a>, doings: Doings) -> Result<(), AllocError>
        requires ids { MayEnter self.old kind.node.now }
        requires kind { doings ≡ kind.node.now.kind }
        ensures walks { (ds : List Declaration) (p : Place) → p.node ≡ kind.entry.node.now
            → ComesTo self.old p → IsShown ds self.old p →
            OnOk result (self.new ≡ walked_into ds self.old p) }
        ensures goes { OnOk result (Goes self.old.made self.new.made) }
    {
        self.step_to(kind, doings)?;
        if doings.acts_on_entering() {
            self.act_on_entering(kind)
        } else {
            Ok(())
        }
    }

    /// At a node to which the walk has stepped: what it declares outside of its own scope is declared, and references,
    /// classes and labels are noted. This stands apart, since most nodes only carry what is below them.
    #[inline(never)]
    fn act_on_entering(&mut self, kind: AstKind<'a>) -> Result<(), AllocError>
        requires references { length self.old.made.tables.references < u32.MAX }
        requires ids { is_bound_inside kind.node.now ≡ false → HasIds self.old kind.node.now }
        ensures walks { (ds : List Declaration) (w : Walker) (p : Place)
            → p.node ≡ kind.entry.node.now → ComesTo w p → IsShown ds w p
            → self.old ≡ stepped_to w kind.entry.node.now →
            OnOk result (self.new ≡ walked_into ds w p) }
        ensures goes { OnOk result (Goes self.old.made self.new.made) }
    {
        self.note_reference(kind)?;
        self.note_eval(kind);
        self.declare(kind, false)?;
        self.note(kind)
    }

    /// Notes a reference, which waits in the current scope.
    #[inline(never)]
    pub(crate) fn refer(&mut self, kind: AstKind<'a>) -> Result<(), AllocError>
        requires { length self.old.made.tables.references < u32.MAX }
        ensures made { OnOk result (self.new ≡ referring self.old kind.entry.node.now) }
        ensures goes { OnOk result (Goes self.old.made self.new.made) }
    {
        let way = cursor::way_of(self.current_reference_flags);
        self.declared.refer(kind, self.current_scope, way)
    }

    /// Makes the scope of the node in its role, which binds nothing.
    fn make_scope(&mut self, kind: AstKind<'a>, role: Role) -> Result<ScopeId, AllocError>
        requires { length self.old.made.tables.scopes < u32.MAX }
        ensures made { OnOk result (self.new
            ≡ record self.old { made = opening_in self.old role kind.entry.node.now }) }
        ensures number { IfOk result (λ s. s ≡ length self.old.made.tables.scopes) }
        ensures apart { IfOk result (λ s. (self.new.current == s) ≡ false) }
        ensures empty { IfOk result (λ s. bindings_of self.new.made.tables s ≡ []) }
        ensures goes { OnOk result (Goes self.old.made self.new.made) }
        ensures within { IfOk result (λ s. s < length self.new.made.tables.scopes) }
    {
        self.declared.scoping().attest();
        let flags = flags_of(kind, role, self.parent(), self.source_type);
        self.declared.open(kind, self.current_scope, flags)
    }

    /// Goes into the scope: what comes next stands in it.
    pub(crate) fn go_to(&mut self, scope: ScopeId)
        requires { scope < length self.old.made.tables.scopes }
        ensures { self.new ≡ record self.old { current = scope } }
    {
        self.current_scope = scope;
    }

    /// Opens the scope of the node in its role.
    pub(crate) fn open(&mut self, kind: AstKind<'a>, role: Role) -> Result<ScopeId, AllocError>
        requires { MayOpen self.old kind.node.now }
        ensures opens { (ds : List Declaration) (p : Place) → p.node ≡ kind.entry.node.now
            → p.role ≡ role → IsWithin self.old p p.chain → ShowsChain self.old.made.tables p.chain
            → HasVar p.chain →
            OnOk result (self.new
            ≡ record self.old {
              made = after ds self.old.made
                  (opening p (opened_scope p (length self.old.made.tables.scopes)));
              current = length self.old.made.tables.scopes;
            }) }
        ensures number { IfOk result (λ s. s ≡ length self.old.made.tables.scopes) }
        ensures goes { OnOk result (Goes self.old.made self.new.made) }
        ensures within { IfOk result (λ s. s < length self.new.made.tables.scopes) }
    {
        let scope = self.make_scope(kind, role)?;
        self.take_over(kind, role, scope)?;
        self.go_to(scope);
        self.declare(kind, true)?;
        Ok(scope)
    }

    /// Whether the node in its role is the body of a catch clause.
    fn is_catch_body(&self, kind: AstKind<'a>, role: Role) -> bool
        ensures { result ≡ is_catch_body (place_in self.now role kind.entry.node.now) }
    {
        kind.ty() == AstType::BlockStatement
            && role == Role::Body
            && self.stands_under(AstType::CatchClause)
    }

    /// The scope of a catch clause's body, which binds nothing yet, takes over what the clause binds (ECMAScript
    /// 14.15.1; TypeScript's `bindVariableDeclarationOrBindingElement`).
    fn take_over(&mut self, kind: AstKind<'a>, role: Role, scope: ScopeId) -> Result<(), AllocError>
        requires scope { scope < length self.old.made.tables.scopes }
        requires apart { (self.old.current == scope) ≡ false }
        requires empty { bindings_of self.old.made.tables scope ≡ [] }
        ensures made { OnOk result (self.new
            ≡ cond (is_catch_body (place_in self.old role kind.entry.node.now))
            (taking_over self.old scope) self.old) }
        ensures goes { OnOk result (Goes self.old.made self.new.made) }
    {
        if self.is_catch_body(kind, role) {
            self.declared.take_over(self.current_scope, scope)
        } else {
            Ok(())
        }
    }

    /// Closes the scope: a direct call of `eval` inside counts for the scope around it, too (ECMAScript 19.2.1.1,
    /// PerformEval).
    pub(crate) fn close(&mut self, scope: ScopeId)
        requires { scope < length self.old.made.tables.scopes }
        ensures made { self.new ≡ record self.old { made = close_scope self.old.made scope } }
        ensures goes { Goes self.old.made self.new.made }
    {
        self.declared.close(scope);
    }

    /// Steps from a node: it leaves the path, and the cursor is that on leaving it.
    #[inline(always)]
    fn step_from(&mut self, kind: AstKind<'a>, doings: Doings) -> Result<(), AllocError>
        requires { doings ≡ kind.node.now.kind }
        ensures made { OnOk result (self.new
            ≡ record self.old {
              path = take (length self.old.path - 1) self.old.path;
              cursor = on_leaving kind.entry.node.now.kind self.old.cursor;
              nodes = option_map leaving self.old.nodes;
              notes = leaving_notes kind.entry.node.now self.old.notes;
            }) }
        ensures goes { OnOk result (Goes self.old.made self.new.made) }
    {
        self.note_behind(kind, doings)?;
        self.turn_on_leaving(doings);
        self.path.pop();
        Ok(())
    }

    /// With checks on, tells the conflicts that are left, and then the rules of early errors that the node violates.
    fn tell<R: Rules>(&mut self, kind: AstKind<'a>, rules: &R) -> Result<(), AllocError>
        requires { self.old.checks ≡ true → IsFit self.old kind.node.now }
        ensures made { (p : Place) → p.node ≡ kind.entry.node.now → ShowsRows self.old p →
            OnOk result
            (let t = telling_left self.old.checks self.old.source (telling_of self.old) p in
            self.new ≡ record self.old { said = t.said; counted = t.counted }) }
        ensures goes { OnOk result (Goes self.old.made self.new.made) }
    {
        if !self.checks {
            return Ok(());
        }
        let context = CheckContext {
            source_text: self.source_text,
            source_type: self.source_type,
            scoping: self.declared.scoping(),
            tables: self.declared.tables(),
            classes: self.notes.classes(),
            ancestry: self.path.ancestry(),
            current_scope_id: self.current_scope,
            in_ambient: is_ambient_inside(kind.node(), self.is_ambient),
        };
        tell_leaving(
            rules,
            self.alloc,
            kind,
            &context,
            &self.declared,
            self.counted,
            &mut self.said,
        )?;
        self.counted = self.declared.conflicts_len();
        Ok(())
    }

    /// What is wrong with the node is told, and it is left. This stands apart, so that leaving a node takes no room for
    /// what is handed to checks where they are off.
    #[inline(never)]
    fn tell_and_leave<R: Rules>(
        &mut self,
        kind: AstKind<'a>,
        doings: Doings,
        rules: &R,
    ) -> Result<(), AllocError>
        requires kind { doings ≡ kind.node.now.kind }
        requires fit { self.old.checks ≡ true → IsFit self.old kind.node.now }
        ensures made { (p : Place) → p.node ≡ kind.entry.node.now → ShowsRows self.old p
            → OnOk result (self.new ≡ left_at self.old p) }
        ensures goes { OnOk result (Goes self.old.made self.new.made) }
    {
        self.tell(kind, rules)?;
        self.step_from(kind, doings)
    }

    /// Leaves the node that is visited, which stands on the path until the end. With checks on, what is wrong with it is
    /// told.
    #[inline(always)]
    pub(crate) fn leave<R: Rules>(
        &mut self,
        kind: AstKind<'a>,
        doings: Doings,
        rules: &R,
    ) -> Result<(), AllocError>
        requires kind { doings ≡ kind.node.now.kind }
        requires fit { self.old.checks ≡ true → IsFit self.old kind.node.now }
        ensures made { (p : Place) → p.node ≡ kind.entry.node.now → ShowsRows self.old p
            → OnOk result (self.new ≡ left_at self.old p) }
        ensures goes { OnOk result (Goes self.old.made self.new.made) }
    {
        if self.checks {
            self.tell_and_leave(kind, doings, rules)
        } else {
            self.step_from(kind, doings)
        }
    }

    /// At the end of a header the references that wait since its start are looked up as far as its scope.
    #[inline(never)]
    pub(crate) fn end_header<L>(
        &mut self,
        scope: ScopeId,
        start: usize,
        steps: &mut Steps<L>,
    ) -> Result<(), AllocError>
        requires scope { scope < length self.old.made.tables.scopes }
        requires start { start ≤ length self.old.made.waiting }
        ensures made { OnOk result (self.new
            ≡ record self.old {
              made = settled_from self.old.made start
                  (map (header_outcome (source_of self.old.made.tables) scope)
                  (drop start self.old.made.waiting));
            }) }
        ensures grows { OnOk result (Grows self.old.made.tables self.new.made.tables) }
        ensures waiting { OnOk result (start ≤ length self.new.made.waiting) }
        ensures cost { OnOk result (steps.new
            ≡ raised steps.old (probes_from self.old.made start scope)) }
        ensures risen { steps.old ≤ steps.new }
        ensures given_up { OnErr result (steps.new
            ≤ raised steps.old (probes_from self.old.made start scope)) }
    {
        self.declared.end_header(scope, start, steps)
    }

    /// After the walk every reference that waits is settled.
    pub(crate) fn end<L>(&mut self, steps: &mut Steps<L>) -> Result<(), AllocError>
        ensures made { OnOk result (self.new
            ≡ record self.old { made = settle_rest self.old.made }) }
        ensures cost { OnOk result (steps.new ≡ raised steps.old (probes_in_end self.old.made)) }
        ensures risen { steps.old ≤ steps.new }
        ensures given_up { OnErr result (steps.new
            ≤ raised steps.old (probes_in_end self.old.made)) }
    {
        self.declared.settle_rest(steps)
    }

    /// Tells the conflicts that are left.
    pub(crate) fn tell_rest(&mut self) -> Result<(), AllocError>
        ensures { OnOk result (let t = caught_up (telling_of self.old) in
            self.new ≡ record self.old { said = t.said; counted = t.counted }) }
    {
        self.declared.tell_from(self.counted, &mut self.said)?;
        self.counted = self.declared.conflicts_len();
        Ok(())
    }

    /// What the walk has made and told.
    pub(crate) fn finish(self) -> Analysis<'a>
        ensures scoping { result.scoping ≡ self.entry.made.tables }
        ensures tables { result.tables ≡ self.entry.made.nodes }
        ensures diagnostics { result.diagnostics ≡ self.entry.said }
        ensures node_list { result.nodes ≡ list_kept self.entry.nodes }
        ensures classes { result.classes ≡ self.entry.notes.classes.classes }
        ensures labels { result.unused_labels.items ≡ self.entry.notes.labels.unused }
    {
        let (scoping, tables) = self.declared.into_tables();
        let (classes, unused_labels) = self.notes.into_parts();
        Analysis {
            scoping,
            tables,
            nodes: self.path.into_nodes(),
            classes,
            unused_labels,
            diagnostics: self.said,
        }
    }

    /// Gives the walk up, for want of memory: what is made is dropped.
    pub(crate) fn give_up(self) {
        self.declared.give_up();
    }
}
