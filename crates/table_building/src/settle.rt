//! References that are settled.

ghost use Rattle.std.specs.Prelude.{◌≡◌, ◌+◌, ◌<◌, ◌≤◌, length, map, take, drop, slice_index_or, All, IfOk, OnOk, OnErr};
ghost use Rattle.std.specs.List.{sum_by};
ghost use Rattle.semantic_syntax.specs.Counts.{raised};
ghost use Rattle.semantic_syntax.specs.Told.{source_of};
ghost use Rattle.semantic_syntax.specs.Outcome.{header_outcome, last_outcome, last_probes};
ghost use Rattle.resolver.specs.Terms.{outcome_of, pending_of};
ghost use Rattle.walk_model.specs.Settles as walked;
ghost use Rattle.table_building.specs.Growth.{Grows};
ghost use Rattle.table_building.specs.Settled.{IsOutcomeWithin, settled_from, probes_from, no_pending, AreOutside};

use crate::declared::Declared;
use resolver::{Outcome, Outcomes, UnresolvedReference, resolve_all, resolve_header, settled};
use semantic_syntax::{Reference, ReferenceId, ScopeId, Steps, SymbolId};
use std::alloc::AllocError;

#[tactic(auto, using(crate::proofs::Growing::growing))]
impl<'a> Declared<'a> {
    /// Ties a reference to a symbol (ECMAScript 9.4.2, ResolveBinding): it has the settled flags, and stands last in
    /// the symbol's uses.
    fn tie(&mut self, reference: ReferenceId, symbol: SymbolId) -> Result<(), AllocError>
        requires reference { reference < length self.old.tables.references }
        requires symbol { symbol < length self.old.tables.symbols }
        ensures made { OnOk result
            (self.new ≡ record self.old { tables = walked.tie self.old.tables reference symbol }) }
        ensures grows { Grows self.old.tables self.new.tables }
    {
        let symbol_flags = self.scoping.symbol_flags(symbol);
        self.scoping.add_resolved_reference(symbol, reference)?;
        let tied = self.scoping.get_reference_mut(reference);
        *tied = Reference {
            node_id: tied.node_id,
            scope_id: tied.scope_id,
            flags: settled(tied.flags, symbol_flags),
            symbol_id: Some(symbol),
        };
        Ok(())
    }

    /// The reference stands last in the free list of its name.
    fn set_free(&mut self, entry: &UnresolvedReference<'_>) -> Result<(), AllocError>
        requires { entry.now.reference_id < length self.old.tables.references }
        ensures made { OnOk result
            (self.new
            ≡ record self.old { tables = walked.set_free self.old.tables (pending_of entry.now) }) }
        ensures grows { Grows self.old.tables self.new.tables }
    {
        self.scoping
            .add_root_unresolved_reference(entry.name, entry.reference_id)
    }

    /// Gives one reference its outcome: it is tied to its symbol, or stands last in the free list of its name, or
    /// waits on.
    fn settle_one(
        &mut self,
        entry: &UnresolvedReference<'_>,
        outcome: Outcome,
    ) -> Result<(), AllocError>
        requires reference { entry.now.reference_id < length self.old.tables.references }
        requires outcome { IsOutcomeWithin (length self.old.tables.symbols)
            (length self.old.tables.scopes) (outcome_of outcome) }
        ensures made { OnOk result
            (self.new
            ≡ record self.old {
              tables = walked.settle_one self.old.tables (pending_of entry.now)
                  (outcome_of outcome);
            }) }
        ensures grows { Grows self.old.tables self.new.tables }
    {
        match outcome {
            Outcome::Tied(symbol) => self.tie(entry.reference_id, symbol),
            Outcome::Free => self.set_free(entry),
            Outcome::Pending(_) => Ok(()),
        }
    }

    /// Gives the reference at the position its outcome.
    fn settle_at(&mut self, position: usize, outcome: Outcome) -> Result<(), AllocError>
        requires position { position < length self.old.waiting }
        requires outcome { IsOutcomeWithin (length self.old.tables.symbols)
            (length self.old.tables.scopes) (outcome_of outcome) }
        ensures made { OnOk result
            (self.new
            ≡ record self.old {
              tables = walked.settle_one self.old.tables
                  (slice_index_or self.old.waiting position no_pending) (outcome_of outcome);
            }) }
        ensures grows { Grows self.old.tables self.new.tables }
    {
        match self.pending.get(position) {
            Some(entry) => self.settle_one(&entry, outcome),
            None => Ok(()),
        }
    }

    /// Gives the references from the position `start` on their outcomes, in the tables.
    fn settle_all(&mut self, start: usize, outcomes: &Outcomes) -> Result<(), AllocError>
        requires count { start + length outcomes.now ≡ length self.old.waiting }
        requires outcomes { All (λ o.
            IsOutcomeWithin (length self.old.tables.symbols) (length self.old.tables.scopes)
            (outcome_of o)) outcomes.now }
        ensures made { OnOk result
            (self.new
            ≡ record self.old {
              tables = walked.settle self.old.tables (drop start self.old.waiting)
                  (map outcome_of outcomes.now);
            }) }
        ensures grows { Grows self.old.tables self.new.tables }
    {
        let items = outcomes.as_slice();
        for position in start..self.waiting() {
            self.settle_at(position, items[position - start])?;
        }
        Ok(())
    }

    /// Gives the references from the position `start` on their outcomes.
    fn settle(&mut self, start: usize, outcomes: &Outcomes) -> Result<(), AllocError>
        requires count { start + length outcomes.now ≡ length self.old.waiting }
        requires outcomes { All (λ o.
            IsOutcomeWithin (length self.old.tables.symbols) (length self.old.tables.scopes)
            (outcome_of o)) outcomes.now }
        ensures made { OnOk result
            (self.new ≡ settled_from self.old start (map outcome_of outcomes.now)) }
        ensures grows { Grows self.old.tables self.new.tables }
        ensures waiting { OnOk result (start ≤ length self.new.waiting) }
    {
        self.settle_all(start, outcomes)?;
        self.pending.apply(start, outcomes);
        Ok(())
    }

    /// What becomes, at the end of a header, of the references that wait from its start on.
    fn header_outcomes<L>(
        &self,
        scope: ScopeId,
        start: usize,
        steps: &mut Steps<L>,
    ) -> Result<Outcomes, AllocError>
        requires scope { scope < length self.now.tables.scopes }
        requires start { start ≤ length self.now.waiting }
        ensures outcomes { IfOk result
            (λ o. map outcome_of o
            ≡ map (header_outcome (source_of self.now.tables) scope)
            (drop start self.now.waiting)) }
        ensures within { IfOk result
            (All (λ o. IsOutcomeWithin (length self.now.tables.symbols)
            (length self.now.tables.scopes) (outcome_of o))) }
        ensures count { IfOk result (λ o. start + length o ≡ length self.now.waiting) }
        ensures cost { OnOk result
            (steps.new ≡ raised steps.old (probes_from self.now start scope)) }
        ensures risen { steps.old ≤ steps.new }
        ensures given_up { OnErr result
            (steps.new ≤ raised steps.old (probes_from self.now start scope)) }
    {
        self.scoping.attest();
        resolve_header(
            self.alloc,
            &self.pending,
            start,
            scope,
            &self.scoping,
            steps,
        )
    }

    /// What becomes, in the end, of the references that wait.
    fn last_outcomes<L>(&self, steps: &mut Steps<L>) -> Result<Outcomes, AllocError>
        ensures outcomes { IfOk result
            (λ o. map outcome_of o
            ≡ map (last_outcome (source_of self.now.tables)) self.now.waiting) }
        ensures within { IfOk result
            (All (λ o. IsOutcomeWithin (length self.now.tables.symbols)
            (length self.now.tables.scopes) (outcome_of o))) }
        ensures count { IfOk result (λ o. length o ≡ length self.now.waiting) }
        ensures cost { OnOk result
            (steps.new ≡ raised steps.old
            (sum_by (last_probes (source_of self.now.tables)) self.now.waiting)) }
        ensures risen { steps.old ≤ steps.new }
        ensures given_up { OnErr result
            (steps.new ≤ raised steps.old
            (sum_by (last_probes (source_of self.now.tables)) self.now.waiting)) }
    {
        self.scoping.attest();
        resolve_all(self.alloc, &self.pending, &self.scoping, steps)
    }

    /// At the end of a header the references that wait since its start are looked up as far as its scope: they don't
    /// see what the body declares (ECMAScript 10.2.11, FunctionDeclarationInstantiation; 14.15.2,
    /// CatchClauseEvaluation).
    ///
    /// Each scope that is asked is one probe, which `steps` counts. After want of memory no more than these were made.
    #[tactic(auto, using(crate::proofs::Growing::growing, crate::proofs::Outside::outside))]
    pub fn end_header<L>(
        &mut self,
        scope: ScopeId,
        start: usize,
        steps: &mut Steps<L>,
    ) -> Result<(), AllocError>
        requires scope { scope < length self.old.tables.scopes }
        requires start { start ≤ length self.old.waiting }
        ensures made { OnOk result
            (self.new ≡ settled_from self.old start
            (map (header_outcome (source_of self.old.tables) scope)
            (drop start self.old.waiting))) }
        ensures whole { AreOutside (source_of self.old.tables) scope (take start self.old.waiting)
            → OnOk result (self.new ≡ walked.end_header self.old scope) }
        ensures grows { Grows self.old.tables self.new.tables }
        ensures waiting { OnOk result (start ≤ length self.new.waiting) }
        ensures cost { OnOk result
            (steps.new ≡ raised steps.old (probes_from self.old start scope)) }
        ensures risen { steps.old ≤ steps.new }
        ensures given_up { OnErr result
            (steps.new ≤ raised steps.old (probes_from self.old start scope)) }
    {
        let outcomes = self.header_outcomes(scope, start, steps)?;
        self.settle(start, &outcomes)
    }

    /// After the walk every reference that waits is settled.
    ///
    /// Each scope that is asked is one probe, which `steps` counts. After want of memory no more than these were made.
    pub fn settle_rest<L>(&mut self, steps: &mut Steps<L>) -> Result<(), AllocError>
        ensures made { OnOk result (self.new ≡ walked.settle_rest self.old) }
        ensures grows { Grows self.old.tables self.new.tables }
        ensures cost { OnOk result
            (steps.new ≡ raised steps.old
            (sum_by (last_probes (source_of self.old.tables)) self.old.waiting)) }
        ensures risen { steps.old ≤ steps.new }
        ensures given_up { OnErr result
            (steps.new ≤ raised steps.old
            (sum_by (last_probes (source_of self.old.tables)) self.old.waiting)) }
    {
        let outcomes = self.last_outcomes(steps)?;
        self.settle(0, &outcomes)
    }
}
