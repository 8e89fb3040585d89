//! The look-up of the references that wait, at the end of a header and in the end (ECMAScript 9.4.2, ResolveBinding).
ghost use Rattle.std.specs.Prelude.{◌≡◌, ◌<◌, ◌≤◌, ◌++◌, map, drop, IfOk, OnOk, OnErr, All, IsTrue};
ghost use Rattle.std.specs.List.{sum_by};
ghost use Rattle.std.specs.Str.{chars};
ghost use Rattle.semantic_syntax.specs.Counts.{raised};
ghost use Rattle.semantic_syntax.specs.Source.{Source};
ghost use Rattle.semantic_syntax.specs.Outcome.{waits_outside, header_outcome, header_probes, last_outcome, last_probes};
ghost use Rattle.resolver.specs.Terms.{outcome_of, pending_of, MayBeArguments, is_settled};

use crate::lookup::{any_named_arguments, is_within, look_up};
use crate::outcomes::{Outcome, Outcomes};
use crate::pending::{UnresolvedReference, UnresolvedReferences};
use scoping::BindingSource;
use semantic_syntax::{ScopeId, Steps};
use std::alloc::{AllocError, Global};

// For so many references at once it is asked whether one is named `arguments`.
const AT_ONCE: usize = 64;

// What becomes of a reference that no scope up to this one answers: it waits in the parent.
fn outside<L, B: BindingSource<L>>(scope: ScopeId, source: &B) -> Outcome
    requires { scope < (B.meaning source.now).scopes }
    ensures { outcome_of result ≡ waits_outside (B.meaning source.now) scope }
{
    match source.parent(scope) {
        Some(parent) => Outcome::Pending(parent),
        None => Outcome::Free,
    }
}

// What becomes of the reference at the end of the header whose scope this is: what the body declares isn't there yet
// (ECMAScript 10.2.11, FunctionDeclarationInstantiation; 14.15.2, CatchClauseEvaluation).
fn resolve_in_header<L, B: BindingSource<L>>(
    entry: &UnresolvedReference<'_>,
    scope: ScopeId,
    source: &B,
    steps: &mut Steps<L>,
) -> Outcome
    requires scope { scope < (B.meaning source.now).scopes }
    requires lookup_scope { entry.now.lookup_scope_id < (B.meaning source.now).scopes }
    requires reference { entry.now.reference_id < (B.meaning source.now).references }
    ensures outcome { outcome_of result
        ≡ header_outcome (B.meaning source.now) scope (pending_of entry.now) }
    ensures cost { steps.new ≡ raised steps.old
        (header_probes (B.meaning source.now) scope (pending_of entry.now)) }
{
    if !is_within(entry.lookup_scope_id, scope, source) {
        return Outcome::Pending(entry.lookup_scope_id);
    }
    match look_up(entry, true, Some(scope), source, steps) {
        Some(outcome) => outcome,
        None => outside(scope, source),
    }
}

// What becomes of the reference in the end, when all is declared.
fn resolve_last<L, B: BindingSource<L>>(
    entry: &UnresolvedReference<'_>,
    may_be: bool,
    source: &B,
    steps: &mut Steps<L>,
) -> Outcome
    requires lookup_scope { entry.now.lookup_scope_id < (B.meaning source.now).scopes }
    requires reference { entry.now.reference_id < (B.meaning source.now).references }
    requires may_be { MayBeArguments (chars entry.now.name.text.now) may_be }
    ensures outcome { outcome_of result
        ≡ last_outcome (B.meaning source.now) (pending_of entry.now) }
    ensures cost { steps.new ≡ raised steps.old
        (last_probes (B.meaning source.now) (pending_of entry.now)) }
{
    match look_up(entry, may_be, None, source, steps) {
        Some(outcome) => outcome,
        None => Outcome::Free,
    }
}

// What becomes in the end of the references of a batch, behind the outcomes so far.
fn resolve_batch<L, B: BindingSource<L>>(
    batch: &[UnresolvedReference<'_>],
    source: &B,
    steps: &mut Steps<L>,
    outcomes: &mut Outcomes,
) -> Result<(), AllocError>
    requires lookup_scopes { All (λ u. u.lookup_scope_id < (B.meaning source.now).scopes)
        batch.now }
    requires references { All (λ u. u.reference_id < (B.meaning source.now).references)
        batch.now }
    ensures outcomes { OnOk result (map outcome_of outcomes.new
        ≡ map outcome_of outcomes.old
        ++ map (last_outcome (B.meaning source.now)) (map pending_of batch.now)) }
    ensures cost { OnOk result (steps.new
        ≡ raised steps.old (sum_by (last_probes (B.meaning source.now))
        (map pending_of batch.now))) }
    ensures risen { steps.old ≤ steps.new }
    ensures given_up { OnErr result
        (steps.new ≤ raised steps.old
        (sum_by (last_probes (B.meaning source.now)) (map pending_of batch.now))) }
{
    let may_be = any_named_arguments(batch);
    for entry in batch {
        let outcome = resolve_last(entry, may_be, source, steps);
        outcomes.push(outcome)?;
    }
    Ok(())
}

/// The outcomes, at the end of the header whose scope this is, of the references from the position `start` on. One
/// that waits in the scope or below is looked up as far as the scope; if nothing is found it waits in the scope's
/// parent. Another one waits on as it was.
///
/// Each scope that is asked is one probe, which `steps` counts. After want of memory no more than these were made.
pub fn resolve_header<L, B: BindingSource<L>>(
    alloc: Global,
    pending: &UnresolvedReferences<'_>,
    start: usize,
    scope: ScopeId,
    source: &B,
    steps: &mut Steps<L>,
) -> Result<Outcomes, AllocError>
    requires scope { scope < (B.meaning source.now).scopes }
    requires lookup_scopes { All (λ u. u.lookup_scope_id < (B.meaning source.now).scopes)
        (drop start pending.now) }
    requires references { All (λ u. u.reference_id < (B.meaning source.now).references)
        (drop start pending.now) }
    ensures outcomes { IfOk result
        (λ v. map outcome_of v ≡ map (header_outcome (B.meaning source.now) scope)
        (map pending_of (drop start pending.now))) }
    ensures cost { OnOk result (steps.new
        ≡ raised steps.old (sum_by (header_probes (B.meaning source.now) scope)
        (map pending_of (drop start pending.now)))) }
    ensures risen { steps.old ≤ steps.new }
    ensures given_up { OnErr result
        (steps.new ≤ raised steps.old
        (sum_by (header_probes (B.meaning source.now) scope)
        (map pending_of (drop start pending.now)))) }
{
    let mut outcomes = Outcomes::new(alloc);
    for entry in pending.entries_from(start) {
        let outcome = resolve_in_header(entry, scope, source, steps);
        outcomes.push(outcome)?;
    }
    Ok(outcomes)
}

/// The outcomes, in the end, of all references that wait: each is looked up as far as the first scope outward
/// that has no parent, and is free if nothing is found. None is pending.
///
/// Each scope that is asked is one probe, which `steps` counts. After want of memory no more than these were made.
pub fn resolve_all<L, B: BindingSource<L>>(
    alloc: Global,
    pending: &UnresolvedReferences<'_>,
    source: &B,
    steps: &mut Steps<L>,
) -> Result<Outcomes, AllocError>
    requires lookup_scopes { All (λ u. u.lookup_scope_id < (B.meaning source.now).scopes)
        pending.now }
    requires references { All (λ u. u.reference_id < (B.meaning source.now).references)
        pending.now }
    ensures outcomes { IfOk result
        (λ v. map outcome_of v ≡ map (last_outcome (B.meaning source.now))
        (map pending_of pending.now)) }
    ensures settled { IfOk result (All (λ o. IsTrue (is_settled o))) }
    ensures cost { OnOk result (steps.new
        ≡ raised steps.old (sum_by (last_probes (B.meaning source.now))
        (map pending_of pending.now))) }
    ensures risen { steps.old ≤ steps.new }
    ensures given_up { OnErr result
        (steps.new ≤ raised steps.old
        (sum_by (last_probes (B.meaning source.now)) (map pending_of pending.now))) }
{
    let mut outcomes = Outcomes::new(alloc);
    let entries = pending.entries_from(0);
    let mut start = 0;
    while start < entries.len() {
        let size = AT_ONCE.min(entries.len() - start);
        resolve_batch(&entries[start..start + size], source, steps, &mut outcomes)?;
        start += size;
    }
    Ok(outcomes)
}
