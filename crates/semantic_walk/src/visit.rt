//! The recursion over the tree.

ghost use Rattle.std.specs.Prelude.{◌≡◌, ◌<◌, ◌≤◌, ◌&&◌, true, false, not, cond, ℕ, Option, Some, None, List, ◌∷◌, length, map, drop, IfOk, OnOk, OnErr};
ghost use Rattle.semantic_kinds.specs.Kinds.{same_kind};
ghost use Rattle.semantic_kinds.specs.declared.kind.AstType.TheVariants.{Program as program_kind};
ghost use Rattle.semantic_kinds.specs.declared.mark.Mark.TheVariants.{Declare as declare_mark};
ghost use Rattle.semantic_tree.specs.Children.{forest_of};
ghost use Rattle.semantic_tree.specs.Forest.{Forest, nothing};
ghost use Rattle.semantic_tree.specs.Views.{has, has_role};
ghost use Rattle.semantic_model.specs.Inside.{opens, is_inside, any_inside, is_in_header, header_roles};
ghost use Rattle.semantic_model.specs.Place.{Place, OpenScope, scope_of_place};
ghost use Rattle.semantic_model.specs.ScopeKind.{opened_scope};
ghost use Rattle.semantic_model.specs.Declaration.{Declaration};
ghost use Rattle.semantic_model.specs.Step.{opening, opening_at, scope_at, child_place, ending_after, opening_last};
ghost use Rattle.semantic_model.specs.Ambient.{ambient_inside, ambient_round};
ghost use Rattle.semantic_model.specs.Cursor.{cursor_before, cursor_behind};
ghost use Rattle.semantic_syntax.specs.Outcome.{header_outcome};
ghost use Rattle.walk_model.specs.Opens.{close_scope};
ghost use Rattle.walk_model.specs.Walks.{after, after_all};
ghost use Rattle.walk_model.specs.Shown.{ShowsChain, HasVar};
ghost use Rattle.walk_model.specs.Waits.{HoldsAt, start_at};
ghost use Rattle.table_building.specs.Growth.{Grows, Goes};
ghost use Rattle.semantic_syntax.specs.Counts.{raised};
ghost use Rattle.semantic_syntax.specs.Told.{source_of};
ghost use Rattle.walk_model.specs.Probes.{probes_of_steps};
ghost use Rattle.table_building.specs.Settled.{settled_from, probes_from};
ghost use Rattle.semantic_walk.specs.Doings.{acts_between, is_leaf};
ghost use Rattle.semantic_walk.specs.Turns.{IsTurn, child_scope, is_passed, past_leaf};
ghost use Rattle.semantic_walk.specs.Walker.{Walker, referring};
ghost use Rattle.semantic_walk.specs.AtPlace.{IsWithin, IsTurnAt, IsBetweenAt, IsComing, IsSomewhere, IsEntered, HasEntered, walked_within, walked_over, probes_over};
ghost use Rattle.semantic_walk.specs.Ids.{MayOpen};
ghost use Rattle.semantic_walk.specs.Leaving.{IsLeaving};

use crate::doings::Doings;
use crate::walk::Walk;
use check_context::Rules;
use node_rules::ambient::{is_ambient_in_child, is_ambient_inside};
use node_rules::cursor::before_child;
use node_rules::inside::{is_in_header, is_parameter_decorator};
use semantic_syntax::{ReferenceFlags, ScopeId, Steps};
use semantic_tree::{AstKind, AstType, Mark, Node, Role};
use std::alloc::AllocError;

/// Where the walk stands between two children of a node.
#[derive(Clone, Copy)]
pub struct Turn {
    /// The scope where the node stands.
    outer: ScopeId,
    /// Whether the code around the node is ambient.
    is_ambient: bool,
    /// The node's own scope, once it is open.
    own: Option<ScopeId>,
    /// How many references waited when it opened.
    header_start: usize,
    /// What the walk does at the node.
    doings: Doings,
}

/// Whether the node has no children.
#[inline(always)]
fn is_leaf(kind: AstKind<'_>) -> bool
    ensures { result ≡ is_leaf kind.entry.node.now.children }
{
    kind.node().children.as_slice().is_empty()
}

/// Whether one of the children is a part of the header of a parent of the kind.
fn any_in_header(parent: AstType, children: &[(Role, Node)]) -> bool
    ensures { result ≡ has_role (header_roles parent) (forest_of children.now) }
{
    for (role, _) in children {
        if is_in_header(parent, *role) {
            return true;
        }
    }
    false
}

#[tactic(auto, using(crate::proofs::Going::going))]
impl<'a> Walk<'a> {
    /// Before the first child of a node. The root's scope is open already.
    fn turn(&self, doings: Doings) -> Turn
        ensures stands { IsTurn self.now.made result }
        ensures value { result ≡ record {
          outer = self.now.current;
          is_ambient = self.now.is_ambient;
          own = cond (same_kind doings program_kind) (Some self.now.current) None;
          header_start = length self.now.made.waiting;
          doings = doings;
        } }
    {
        Turn {
            outer: self.current_scope,
            is_ambient: self.is_ambient,
            own: if doings.kind() == AstType::Program {
                Some(self.current_scope)
            } else {
                None
            },
            header_start: self.declared.waiting(),
            doings,
        }
    }

    /// The scope where a child in the role stands.
    fn scope_of_child(&self, turn: &Turn, role: Role) -> ScopeId
        requires { IsTurn self.now.made turn.now }
        ensures value { result ≡ child_scope self.now.made.tables turn.now turn.now.doings role }
        ensures within { result < length self.now.made.tables.scopes }
    {
        if is_parameter_decorator(turn.doings.kind(), role) {
            return self.declared.around(turn.outer);
        }
        match turn.own {
            Some(own) if turn.doings.is_inside(role) => own,
            _ => turn.outer,
        }
    }

    /// Opens the node's scope, where its header starts.
    #[inline(never)]
    fn open_own(
        &mut self,
        parent: AstKind<'a>,
        parent_role: Role,
        turn: &mut Turn,
    ) -> Result<(), AllocError>
        requires turn { IsTurn self.old.made turn.old }
        requires ids { MayOpen self.old parent.node.now }
        ensures opens { (ds : List Declaration) (p : Place) → p.node ≡ parent.entry.node.now
            → p.role ≡ parent_role → IsWithin self.old p p.chain
            → ShowsChain self.old.made.tables p.chain → HasVar p.chain →
            OnOk result (self.new
            ≡ record self.old {
              made = after ds self.old.made
                  (opening p (opened_scope p (length self.old.made.tables.scopes)));
              current = length self.old.made.tables.scopes;
            }) }
        ensures own { OnOk result (turn.new
            ≡ record turn.old {
              own = Some (length self.old.made.tables.scopes);
              header_start = length self.old.made.waiting;
            }) }
        ensures goes { OnOk result (Goes self.old.made self.new.made) }
        ensures stands { OnOk result (IsTurn self.new.made turn.new) }
        ensures start { OnOk result (turn.old.header_start ≤ turn.new.header_start) }
    {
        turn.header_start = self.declared.waiting();
        turn.own = Some(self.open(parent, parent_role)?);
        Ok(())
    }

    /// Before a child: the node's scope opens where the child is the first inside it, so that what stands outside
    /// isn't in it.
    fn open_for(
        &mut self,
        parent: AstKind<'a>,
        parent_role: Role,
        turn: &mut Turn,
        role: Role,
    ) -> Result<(), AllocError>
        requires turn { IsTurn self.old.made turn.old }
        requires ids { turn.old.own ≡ None → is_inside turn.old.doings role ≡ true
            → MayOpen self.old parent.node.now }
        ensures opens { (ds : List Declaration) (p : Place) (own : Option OpenScope)
            (n cursor start : ℕ) (f : Forest) → p.node ≡ parent.entry.node.now
            → p.role ≡ parent_role → IsBetweenAt ds self.old turn.old p own n cursor start f →
            OnOk result ((record self.new { current = self.old.current }
            ≡ record self.old { made = after_all ds self.old.made (opening_at p role own n) })
            × IsTurnAt turn.new p (scope_at p role own n)
            (start_at p role own start self.old.made)) }
        ensures kind { OnOk result (turn.new.doings ≡ turn.old.doings) }
        ensures goes { OnOk result (Goes self.old.made self.new.made) }
        ensures stands { OnOk result (IsTurn self.new.made turn.new) }
        ensures start { OnOk result (turn.old.header_start ≤ turn.new.header_start) }
    {
        if turn.own.is_none() && turn.doings.is_inside(role) {
            self.open_own(parent, parent_role, turn)
        } else {
            Ok(())
        }
    }

    /// Comes to a child: scope, ambience and cursor are the child's.
    fn stand_at_child(&mut self, parent: AstKind<'a>, turn: &Turn, role: Role, child: AstKind<'a>)
        requires turn { IsTurn self.old.made turn.now }
        requires kind { turn.now.doings ≡ parent.node.now.kind }
        ensures made { self.new ≡ record self.old {
          current = child_scope self.old.made.tables turn.now parent.entry.node.now.kind role;
          cursor = cursor_before parent.entry.node.now
              (ambient_inside parent.entry.node.now turn.now.is_ambient) role child.entry.node.now
              self.old.cursor;
          is_ambient = ambient_round parent.entry.node.now turn.now.is_ambient role;
        } }
        ensures goes { Goes self.old.made self.new.made }
    {
        let inside = is_ambient_inside(parent.node(), turn.is_ambient);
        self.current_scope = self.scope_of_child(turn, role);
        self.current_reference_flags = turn
            .doings
            .before_child(parent, inside, role, child, self.current_reference_flags);
        self.is_ambient = is_ambient_in_child(parent.node(), turn.is_ambient, role);
    }

    /// Before a child: the node's scope may open, and the walk comes to where the child stands.
    fn begin_child(
        &mut self,
        parent: AstKind<'a>,
        parent_role: Role,
        turn: &mut Turn,
        role: Role,
        child: AstKind<'a>,
    ) -> Result<(), AllocError>
        requires turn { IsTurn self.old.made turn.old }
        requires kind { turn.old.doings ≡ parent.node.now.kind }
        requires ids { turn.old.own ≡ None → is_inside turn.old.doings role ≡ true
            → MayOpen self.old parent.node.now }
        ensures comes { (ds : List Declaration) (p : Place) (own : Option OpenScope)
            (n cursor start : ℕ) (rest : List (Role × Node)) → p.node ≡ parent.entry.node.now
            → p.role ≡ parent_role →
            IsBetweenAt ds self.old turn.old p own n cursor start
            (forest_of ((role, child.entry.node.now) ∷ rest)) →
            let place = child_place p (scope_at p role own n) cursor role child.entry.node.now in
            OnOk result ((self.new ≡ record self.old {
              made = after_all ds self.old.made (opening_at p role own n);
              current = scope_of_place place;
              cursor = place.cursor;
              is_ambient = place.is_ambient;
            }) × IsTurnAt turn.new p (scope_at p role own n)
            (start_at p role own start self.old.made)) }
        ensures goes { OnOk result (Goes self.old.made self.new.made) }
        ensures stands { OnOk result (IsTurn self.new.made turn.new) }
        ensures start { OnOk result (turn.old.header_start ≤ turn.new.header_start) }
    {
        self.open_for(parent, parent_role, turn, role)?;
        self.stand_at_child(parent, turn, role, child);
        Ok(())
    }

    /// Comes back from a child: scope and ambience are the node's again.
    fn come_back(&mut self, turn: &Turn)
        requires { IsTurn self.old.made turn.now }
        ensures made { self.new ≡ record
            self.old { current = turn.now.outer; is_ambient = turn.now.is_ambient } }
        ensures goes { Goes self.old.made self.new.made }
    {
        self.current_scope = turn.outer;
        self.is_ambient = turn.is_ambient;
    }

    /// The header of the scope ends after its last part, before the body declares (ECMAScript 10.2.11,
    /// FunctionDeclarationInstantiation; 14.15.2, CatchClauseEvaluation).
    fn end_header_behind<L>(
        &mut self,
        doings: Doings,
        own: ScopeId,
        start: usize,
        role: Role,
        rest: &[(Role, Node)],
        steps: &mut Steps<L>,
    ) -> Result<(), AllocError>
        requires scope { own < length self.old.made.tables.scopes }
        requires start { start ≤ length self.old.made.waiting }
        ensures made { OnOk result (self.new
            ≡ cond (is_in_header doings role
            && not (has_role (header_roles doings) (forest_of rest.now)))
            (record self.old {
              made = settled_from self.old.made start
                  (map (header_outcome (source_of self.old.made.tables) own)
                  (drop start self.old.made.waiting));
            }) self.old) }
        ensures grows { OnOk result (Grows self.old.made.tables self.new.made.tables) }
        ensures waiting { OnOk result (start ≤ length self.new.made.waiting) }
        ensures cost { OnOk result (steps.new
            ≡ raised steps.old (cond
            (is_in_header doings role && not (has_role (header_roles doings) (forest_of rest.now)))
            (probes_from self.old.made start own) 0)) }
        ensures risen { steps.old ≤ steps.new }
        ensures given_up { OnErr result (steps.new
            ≤ raised steps.old (cond
            (is_in_header doings role && not (has_role (header_roles doings) (forest_of rest.now)))
            (probes_from self.old.made start own) 0)) }
    {
        if doings.is_in_header(role) && !any_in_header(doings.kind(), rest) {
            self.end_header(own, start, steps)
        } else {
            Ok(())
        }
    }

    /// The scope closes after the last child inside it.
    fn close_behind(&mut self, doings: Doings, own: ScopeId, role: Role, rest: &[(Role, Node)])
        requires { own < length self.old.made.tables.scopes }
        ensures made { self.new ≡ cond
            (is_inside doings role && not (any_inside doings (forest_of rest.now)))
            (record self.old { made = close_scope self.old.made own }) self.old }
        ensures goes { Goes self.old.made self.new.made }
    {
        if doings.is_inside(role) && !doings.any_inside(rest) {
            self.close(own);
        }
    }

    /// Behind a child: the header ends after its last part, and the scope closes after the last child inside it.
    fn end_child<L>(
        &mut self,
        turn: &Turn,
        role: Role,
        rest: &[(Role, Node)],
        steps: &mut Steps<L>,
    ) -> Result<(), AllocError>
        requires { IsTurn self.old.made turn.now }
        ensures ends { (ds : List Declaration) (p : Place) (own : Option OpenScope) (start : ℕ)
            → IsTurnAt turn.now p own start → HoldsAt self.old.made own start →
            OnOk result (self.new
            ≡ record self.old {
              made = after_all ds self.old.made (ending_after p role own (forest_of rest.now));
            }) }
        ensures grows { OnOk result (Grows self.old.made.tables self.new.made.tables) }
        ensures stands { OnOk result (IsTurn self.new.made turn.now) }
        ensures cost { (ds : List Declaration) (p : Place) (own : Option OpenScope) (start : ℕ)
            → IsTurnAt turn.now p own start → HoldsAt self.old.made own start →
            OnOk result (steps.new
            ≡ raised steps.old (probes_of_steps ds self.old.made
            (ending_after p role own (forest_of rest.now)))) }
        ensures risen { steps.old ≤ steps.new }
        ensures given_up { (ds : List Declaration) (p : Place) (own : Option OpenScope) (start : ℕ)
            → IsTurnAt turn.now p own start → HoldsAt self.old.made own start →
            OnErr result (steps.new
            ≤ raised steps.old (probes_of_steps ds self.old.made
            (ending_after p role own (forest_of rest.now)))) }
    {
        match turn.own {
            Some(own) => {
                self.end_header_behind(turn.doings, own, turn.header_start, role, rest, steps)?;
                self.close_behind(turn.doings, own, role, rest);
                Ok(())
            }
            None => Ok(()),
        }
    }

    /// Opens the node's scope, and closes it at once.
    #[inline(never)]
    fn open_empty(&mut self, kind: AstKind<'a>, role: Role, turn: &Turn) -> Result<(), AllocError>
        requires turn { IsTurn self.old.made turn.now }
        requires ids { MayOpen self.old kind.node.now }
        ensures ends { (ds : List Declaration) (p : Place) → p.node ≡ kind.entry.node.now
            → p.role ≡ role → IsWithin self.old p p.chain → ShowsChain self.old.made.tables p.chain
            → HasVar p.chain →
            OnOk result (self.new ≡ record self.old {
              made = close_scope
                  (after ds self.old.made
                  (opening p (opened_scope p (length self.old.made.tables.scopes))))
                  (length self.old.made.tables.scopes);
              current = turn.now.outer;
              is_ambient = turn.now.is_ambient;
            }) }
        ensures goes { OnOk result (Goes self.old.made self.new.made) }
    {
        let own = self.open(kind, role)?;
        self.close(own);
        self.come_back(turn);
        Ok(())
    }

    /// A scope without any child inside opens, and closes at once, behind all children.
    fn open_last(&mut self, kind: AstKind<'a>, role: Role, turn: &Turn) -> Result<(), AllocError>
        requires turn { IsTurn self.old.made turn.now }
        requires ids { turn.now.own ≡ None → opens turn.now.doings ≡ true
            → MayOpen self.old kind.node.now }
        ensures ends { (ds : List Declaration) (p : Place) (own : Option OpenScope)
            (n cursor start : ℕ) → p.node ≡ kind.entry.node.now → p.role ≡ role
            → IsBetweenAt ds self.old turn.now p own n cursor start nothing →
            OnOk result (self.new
            ≡ record self.old { made = after_all ds self.old.made (opening_last p own n) }) }
        ensures goes { OnOk result (Goes self.old.made self.new.made) }
    {
        if turn.own.is_none() && turn.doings.opens() {
            self.open_empty(kind, role, turn)
        } else {
            Ok(())
        }
    }

    /// The cursor, as the walk stands.
    fn current_reference_flags(&self) -> ReferenceFlags
        ensures { result.bits ≡ self.now.cursor }
    {
        self.current_reference_flags
    }

    /// Behind a child the cursor may be what it was before, or empty.
    fn turn_cursor(&mut self, doings: Doings, role: Role, before: ReferenceFlags)
        ensures made { self.new ≡ record
            self.old { cursor = cursor_behind doings role before.bits self.old.cursor } }
        ensures goes { Goes self.old.made self.new.made }
    {
        self.current_reference_flags = doings.behind_child(
            role,
            before,
            self.current_reference_flags,
        );
    }

    /// Behind a child: the walk stands in the node again, and its header or scope may end.
    fn finish_child<L>(
        &mut self,
        turn: &Turn,
        role: Role,
        before: ReferenceFlags,
        rest: &[(Role, Node)],
        steps: &mut Steps<L>,
    ) -> Result<(), AllocError>
        requires { IsTurn self.old.made turn.now }
        ensures ends { (ds : List Declaration) (p : Place) (own : Option OpenScope) (start : ℕ)
            → IsTurnAt turn.now p own start → HoldsAt self.old.made own start →
            OnOk result (self.new ≡ record self.old {
              made = after_all ds self.old.made (ending_after p role own (forest_of rest.now));
              current = scope_of_place p;
              cursor = cursor_behind p.node.kind role before.bits self.old.cursor;
              is_ambient = p.is_ambient;
            }) }
        ensures grows { OnOk result (Grows self.old.made.tables self.new.made.tables) }
        ensures stands { OnOk result (IsTurn self.new.made turn.now) }
        ensures cost { (ds : List Declaration) (p : Place) (own : Option OpenScope) (start : ℕ)
            → IsTurnAt turn.now p own start → HoldsAt self.old.made own start →
            OnOk result (steps.new
            ≡ raised steps.old (probes_of_steps ds self.old.made
            (ending_after p role own (forest_of rest.now)))) }
        ensures risen { steps.old ≤ steps.new }
        ensures given_up { (ds : List Declaration) (p : Place) (own : Option OpenScope) (start : ℕ)
            → IsTurnAt turn.now p own start → HoldsAt self.old.made own start →
            OnErr result (steps.new
            ≤ raised steps.old (probes_of_steps ds self.old.made
            (ending_after p role own (forest_of rest.now)))) }
    {
        self.come_back(turn);
        self.turn_cursor(turn.doings, role, before);
        self.end_child(turn, role, rest, steps)
    }

    /// Whether the node is passed over, a leaf that needs no visit: to enter it and to leave it would tell nothing, leave no
    /// trace of it, and make and note nothing but a reference.
    #[inline(always)]
    fn passes(&self, kind: AstKind<'a>) -> bool
        ensures { result ≡ is_passed self.now kind.entry.node.now }
    {
        Doings::of(kind.ty()).is_passing()
            && is_leaf(kind)
            && !self.checks
            && !self.path.keeps_nodes()
    }

    /// Notes a reference that is a leaf, as a visit would: it waits in the current scope, and uses the cursor up.
    fn refer_in_passing(&mut self, kind: AstKind<'a>) -> Result<(), AllocError>
        requires { length self.old.made.tables.references < u32.MAX }
        ensures made { OnOk result (self.new
            ≡ record (referring self.old kind.entry.node.now) { cursor = 0 }) }
        ensures goes { OnOk result (Goes self.old.made self.new.made) }
    {
        self.refer(kind)?;
        self.current_reference_flags = ReferenceFlags::empty();
        Ok(())
    }

    /// Goes past a leaf that is passed over, and notes it where it is a reference.
    #[inline(always)]
    fn pass(&mut self, kind: AstKind<'a>) -> Result<(), AllocError>
        requires { length self.old.made.tables.references < u32.MAX }
        ensures made { OnOk result (self.new ≡ past_leaf self.old kind.entry.node.now) }
        ensures goes { OnOk result (Goes self.old.made self.new.made) }
    {
        if kind.ty() == AstType::IdentifierReference {
            self.refer_in_passing(kind)
        } else {
            Ok(())
        }
    }

    /// Comes to a child that stands in the scope of its parent, and is ambient as it is: the cursor is the child's.
    #[inline(always)]
    fn turn_to(&mut self, parent: AstKind<'a>, role: Role, child: AstKind<'a>)
        requires { acts_between parent.node.now.kind ≡ false }
        ensures made { self.new ≡ record self.old {
          cursor = cursor_before parent.entry.node.now self.old.is_ambient role
              child.entry.node.now self.old.cursor;
        } }
        ensures goes { Goes self.old.made self.new.made }
    {
        if role == Role::Binding {
            self.current_reference_flags = before_child(
                parent,
                self.is_ambient,
                role,
                child,
                self.current_reference_flags,
            );
        }
    }

    /// Walks over the children of a node that is entered, where nothing happens between them: each stands in its parent's
    /// scope, and is ambient as it is.
    #[cycle(walk)]
    #[inline(always)]
    #[tactic(auto, using(semantic_tree::specs::Falls::below, crate::proofs::Going::going))]
    fn walk_even<L, R: Rules>(
        &mut self,
        kind: AstKind<'a>,
        role: Role,
        rules: &R,
        steps: &mut Steps<L>,
    ) -> Result<(), AllocError>
        requires inside { HasEntered self.old kind.node.now role }
        requires even { acts_between kind.node.now.kind ≡ false }
        requires unmarked { has declare_mark kind.node.now ≡ false }
        ensures walks { (ds : List Declaration) (first : Walker) (p : Place)
            (own : Option OpenScope)
            (n : ℕ) → p.node ≡ kind.entry.node.now → p.role ≡ role
            → IsEntered ds first self.old p own n →
            OnOk result (self.new ≡ walked_within ds first p own n) }
        ensures leaves { (ds : List Declaration) (first : Walker) (p : Place)
            (own : Option OpenScope) (n : ℕ) → p.node ≡ kind.entry.node.now → p.role ≡ role
            → IsEntered ds first self.old p own n → OnOk result (IsLeaving self.new p) }
        ensures goes { OnOk result (Goes self.old.made self.new.made) }
        ensures cost { (ds : List Declaration) (first : Walker) (p : Place) (own : Option OpenScope)
            (n : ℕ) → p.node ≡ kind.entry.node.now → p.role ≡ role
            → IsEntered ds first self.old p own n →
            OnOk result (steps.new ≡ raised steps.old (probes_over ds first p own n)) }
        ensures risen { steps.old ≤ steps.new }
        ensures given_up { (ds : List Declaration) (first : Walker) (p : Place)
            (own : Option OpenScope) (n : ℕ) → p.node ≡ kind.entry.node.now → p.role ≡ role
            → IsEntered ds first self.old p own n →
            OnErr result (steps.new ≤ raised steps.old (probes_over ds first p own n)) }
    {
        let mut left = kind.node().children.as_slice();
        while let Some(((child_role, child), rest)) = left.split_first() {
            let child = AstKind::new(child);
            self.turn_to(kind, *child_role, child);
            self.walk_child(child, *child_role, rules, steps)?;
            left = rest;
        }
        Ok(())
    }

    /// Walks over the children of a node that is entered, where the node's scope may open and close between them, its
    /// header may end and the cursor may turn, and a child may stand elsewhere.
    #[cycle(walk)]
    #[tactic(auto, using(semantic_tree::specs::Falls::below, crate::proofs::Going::going))]
    fn walk_acting<L, R: Rules>(
        &mut self,
        kind: AstKind<'a>,
        role: Role,
        doings: Doings,
        rules: &R,
        steps: &mut Steps<L>,
    ) -> Result<(), AllocError>
        requires inside { HasEntered self.old kind.node.now role }
        requires kind { doings ≡ kind.node.now.kind }
        ensures walks { (ds : List Declaration) (first : Walker) (p : Place)
            (own : Option OpenScope)
            (n : ℕ) → p.node ≡ kind.entry.node.now → p.role ≡ role
            → IsEntered ds first self.old p own n →
            OnOk result (self.new ≡ walked_within ds first p own n) }
        ensures leaves { (ds : List Declaration) (first : Walker) (p : Place)
            (own : Option OpenScope) (n : ℕ) → p.node ≡ kind.entry.node.now → p.role ≡ role
            → IsEntered ds first self.old p own n → OnOk result (IsLeaving self.new p) }
        ensures goes { OnOk result (Goes self.old.made self.new.made) }
        ensures cost { (ds : List Declaration) (first : Walker) (p : Place) (own : Option OpenScope)
            (n : ℕ) → p.node ≡ kind.entry.node.now → p.role ≡ role
            → IsEntered ds first self.old p own n →
            OnOk result (steps.new ≡ raised steps.old (probes_over ds first p own n)) }
        ensures risen { steps.old ≤ steps.new }
        ensures given_up { (ds : List Declaration) (first : Walker) (p : Place)
            (own : Option OpenScope) (n : ℕ) → p.node ≡ kind.entry.node.now → p.role ≡ role
            → IsEntered ds first self.old p own n →
            OnErr result (steps.new ≤ raised steps.old (probes_over ds first p own n)) }
    {
        let mut turn = self.turn(doings);
        let mut left = kind.node().children.as_slice();
        while let Some(((child_role, child), rest)) = left.split_first() {
            let child = AstKind::new(child);
            let before = self.current_reference_flags();
            self.begin_child(kind, role, &mut turn, *child_role, child)?;
            self.walk_child(child, *child_role, rules, steps)?;
            self.finish_child(&turn, *child_role, before, rest, steps)?;
            left = rest;
        }
        self.open_last(kind, role, &turn)
    }

    /// Walks over all that is below a node that is entered.
    #[cycle(walk)]
    #[inline(always)]
    pub(crate) fn walk_below<L, R: Rules>(
        &mut self,
        kind: AstKind<'a>,
        role: Role,
        doings: Doings,
        rules: &R,
        steps: &mut Steps<L>,
    ) -> Result<(), AllocError>
        requires inside { HasEntered self.old kind.node.now role }
        requires kind { doings ≡ kind.node.now.kind }
        ensures walks { (ds : List Declaration) (first : Walker) (p : Place)
            (own : Option OpenScope)
            (n : ℕ) → p.node ≡ kind.entry.node.now → p.role ≡ role
            → IsEntered ds first self.old p own n →
            OnOk result (self.new ≡ walked_within ds first p own n) }
        ensures leaves { (ds : List Declaration) (first : Walker) (p : Place)
            (own : Option OpenScope) (n : ℕ) → p.node ≡ kind.entry.node.now → p.role ≡ role
            → IsEntered ds first self.old p own n → OnOk result (IsLeaving self.new p) }
        ensures goes { OnOk result (Goes self.old.made self.new.made) }
        ensures cost { (ds : List Declaration) (first : Walker) (p : Place) (own : Option OpenScope)
            (n : ℕ) → p.node ≡ kind.entry.node.now → p.role ≡ role
            → IsEntered ds first self.old p own n →
            OnOk result (steps.new ≡ raised steps.old (probes_over ds first p own n)) }
        ensures risen { steps.old ≤ steps.new }
        ensures given_up { (ds : List Declaration) (first : Walker) (p : Place)
            (own : Option OpenScope) (n : ℕ) → p.node ≡ kind.entry.node.now → p.role ≡ role
            → IsEntered ds first self.old p own n →
            OnErr result (steps.new ≤ raised steps.old (probes_over ds first p own n)) }
    {
        if doings.acts_between() || kind.has_mark(Mark::Declare) {
            self.walk_acting(kind, role, doings, rules, steps)
        } else {
            self.walk_even(kind, role, rules, steps)
        }
    }

    /// Enters a node in its role, walks over all that is below it, and leaves it.
    #[cycle(walk)]
    fn walk_over<L, R: Rules>(
        &mut self,
        kind: AstKind<'a>,
        role: Role,
        rules: &R,
        steps: &mut Steps<L>,
    ) -> Result<(), AllocError>
        requires { IsSomewhere self.old kind.node.now role }
        ensures walks { (ds : List Declaration) (p : Place) (n : ℕ) → p.node ≡ kind.entry.node.now
            → p.role ≡ role → IsComing ds self.old p None n →
            OnOk result (self.new ≡ walked_over ds self.old p None n) }
        ensures goes { OnOk result (Goes self.old.made self.new.made) }
        ensures cost { (ds : List Declaration) (p : Place) (n : ℕ) → p.node ≡ kind.entry.node.now
            → p.role ≡ role → IsComing ds self.old p None n →
            OnOk result (steps.new ≡ raised steps.old (probes_over ds self.old p None n)) }
        ensures risen { steps.old ≤ steps.new }
        ensures given_up { (ds : List Declaration) (p : Place) (n : ℕ)
            → p.node ≡ kind.entry.node.now → p.role ≡ role → IsComing ds self.old p None n →
            OnErr result (steps.new ≤ raised steps.old (probes_over ds self.old p None n)) }
    {
        let doings = Doings::of(kind.ty());
        self.enter(kind, doings)?;
        self.walk_below(kind, role, doings, rules, steps)?;
        self.leave(kind, doings, rules)
    }

    /// Walks over a child in its role and all that is below it, or goes past it, where that is the same.
    #[cycle(walk)]
    #[inline(always)]
    fn walk_child<L, R: Rules>(
        &mut self,
        kind: AstKind<'a>,
        role: Role,
        rules: &R,
        steps: &mut Steps<L>,
    ) -> Result<(), AllocError>
        requires { IsSomewhere self.old kind.node.now role }
        ensures walks { (ds : List Declaration) (p : Place) (n : ℕ) → p.node ≡ kind.entry.node.now
            → p.role ≡ role → IsComing ds self.old p None n →
            OnOk result (self.new ≡ walked_over ds self.old p None n) }
        ensures goes { OnOk result (Goes self.old.made self.new.made) }
        ensures cost { (ds : List Declaration) (p : Place) (n : ℕ) → p.node ≡ kind.entry.node.now
            → p.role ≡ role → IsComing ds self.old p None n →
            OnOk result (steps.new ≡ raised steps.old (probes_over ds self.old p None n)) }
        ensures risen { steps.old ≤ steps.new }
        ensures given_up { (ds : List Declaration) (p : Place) (n : ℕ)
            → p.node ≡ kind.entry.node.now → p.role ≡ role → IsComing ds self.old p None n →
            OnErr result (steps.new ≤ raised steps.old (probes_over ds self.old p None n)) }
    {
        if self.passes(kind) {
            self.pass(kind)
        } else {
            self.walk_over(kind, role, rules, steps)
        }
    }
}
