//! References that wait for their symbol, one of them in a long chain of scopes, which is asked without recursion.
use resolver::{Outcome, UnresolvedReference, UnresolvedReferences, resolve_all, resolve_header};
use scoping::Scoping;
use semantic_syntax::{
    Ident, NodeId, Reference, ReferenceFlags, ReferenceId, ScopeFlags, ScopeId, Span, Steps,
    SymbolFlags, SymbolId,
};
use std::alloc::{AllocError, Global};
use std::process::Abort;
use std::test::Fail;

/// A reference to a name in the last of some scopes, and what becomes of it at the end of a header and in the end.
struct Case {
    name: &'static str,
    scopes: u32,
    lookup: u32,
    header: u32,
    /// The scope from which the name is looked up after the header.
    waits_in: u32,
    probes: u64,
    /// Whether it means symbol 0, or else none.
    is_tied: bool,
    probes_in_all: u64,
}

impl Case {
    fn ends_as(&self) -> Outcome {
        if self.is_tied {
            Outcome::Tied(SymbolId::new(0))
        } else {
            Outcome::Free
        }
    }
}

/// A name that no scope binds, and one at the outer end of a long chain.
const CASES: &[Case] = &[
    Case {
        name: "x",
        scopes: 2,
        lookup: 1,
        header: 1,
        waits_in: 0,
        probes: 1,
        is_tied: false,
        probes_in_all: 2,
    },
    Case {
        name: "f",
        scopes: 100_000,
        lookup: 99_999,
        header: 50_000,
        waits_in: 49_999,
        probes: 50_000,
        is_tied: true,
        probes_in_all: 100_000,
    },
];

/// The scope of the number, which is none of the greatest.
fn scope_of(number: u32) -> ScopeId {
    ScopeId::new(number.min(200_000))
}

/// Adds so many scopes, each inside the one before.
fn nest(scoping: &mut Scoping, count: u32) -> Result<(), AllocError> {
    if count == 0 || scoping.scopes_len() > 0 {
        return Ok(());
    }
    scoping.add_scope(None, NodeId::ROOT, ScopeFlags::Top)?;
    for number in 0..count - 1 {
        let parent = ScopeId::new(number);
        if parent.index() < scoping.scopes_len() && scoping.scopes_len() < 200_000 {
            scoping.add_scope(Some(parent), NodeId::ROOT, ScopeFlags::empty())?;
        }
    }
    Ok(())
}

/// Binds the name in the scope.
fn bind(scoping: &mut Scoping, name: &str, scope: ScopeId) -> Result<(), AllocError> {
    if scope.index() >= scoping.scopes_len() || scoping.symbols_len() > 9 {
        return Ok(());
    }
    let flags = SymbolFlags::FunctionScopedVariable;
    let name = Ident::new(name);
    let span = Span::new(0, 1);
    scoping.create_symbol_with_binding(span, name, flags, scope, scope, NodeId::ROOT)?;
    Ok(())
}

/// Makes a reference that reads in the scope.
fn refer(scoping: &mut Scoping, scope: u32) -> Result<(), AllocError> {
    if scoping.references_len() > 9 {
        return Ok(());
    }
    let read = Reference::new(NodeId::ROOT, scope_of(scope), ReferenceFlags::Read);
    scoping.create_reference(read)?;
    Ok(())
}

/// Where the reference waits once the header has ended, if it does.
fn header_ends<L>(
    alloc: Global,
    case: &Case,
    scoping: &Scoping,
    steps: &mut Steps<L>,
) -> Result<Option<ScopeId>, AllocError> {
    let lookup = scope_of(case.lookup);
    let header = scope_of(case.header);
    let scopes = scoping.scopes_len();
    if lookup.index() >= scopes || header.index() >= scopes || scoping.references_len() == 0 {
        return Ok(None);
    }
    let mut waiting = UnresolvedReferences::new(alloc);
    waiting.push(UnresolvedReference {
        name: Ident::new(case.name),
        reference_id: ReferenceId::new(0),
        lookup_scope_id: lookup,
    })?;
    let outcomes = resolve_header(alloc, &waiting, 0, header, scoping, steps)?;
    waiting.apply(0, &outcomes);
    drop(outcomes);
    let left = waiting.take();
    drop(waiting);
    let waits_in = first_scope(left.as_slice());
    drop(left);
    Ok(waits_in)
}

/// The scope from which the one reference is to be looked up.
fn first_scope(waiting: &[UnresolvedReference<'_>]) -> Option<ScopeId> {
    match waiting {
        [only] => Some(only.lookup_scope_id),
        _ => None,
    }
}

/// What becomes in the end of the reference that waits in the scope.
fn walk_ends<L>(
    alloc: Global,
    name: &str,
    lookup: ScopeId,
    scoping: &Scoping,
    steps: &mut Steps<L>,
) -> Result<Option<Outcome>, AllocError> {
    if lookup.index() >= scoping.scopes_len() || scoping.references_len() == 0 {
        return Ok(None);
    }
    let mut waiting = UnresolvedReferences::new(alloc);
    waiting.push(UnresolvedReference {
        name: Ident::new(name),
        reference_id: ReferenceId::new(0),
        lookup_scope_id: lookup,
    })?;
    let outcomes = resolve_all(alloc, &waiting, scoping, steps)?;
    drop(waiting);
    let ended = first_outcome(outcomes.as_slice());
    drop(outcomes);
    Ok(ended)
}

fn first_outcome(outcomes: &[Outcome]) -> Option<Outcome> {
    match outcomes {
        [only] => Some(*only),
        _ => None,
    }
}

/// Whether the reference waits where it is to, asks in the header as often as it is to, ends as it is to, and asks in all
/// as often as it is to.
fn is_asked_once(alloc: Global, case: &Case, scoping: &Scoping) -> Result<[bool; 4], AllocError> {
    let mut steps = Steps::new(());
    let Some(waits_in) = header_ends(alloc, case, scoping, &mut steps)? else {
        return Ok([false; 4]);
    };
    let probes = steps.count();
    let ended = walk_ends(alloc, case.name, waits_in, scoping, &mut steps)?;
    Ok([
        waits_in == scope_of(case.waits_in),
        probes == case.probes,
        ended == Some(case.ends_as()),
        steps.count() == case.probes_in_all,
    ])
}

/// Makes the tables of the case: of its scopes the first binds `f` and the second `a`, and the last has a reference.
fn make(scoping: &mut Scoping, case: &Case) -> Result<(), AllocError> {
    nest(scoping, case.scopes)?;
    bind(scoping, "f", ScopeId::new(0))?;
    bind(scoping, "a", ScopeId::new(1))?;
    refer(scoping, case.lookup)
}

fn make_and_ask(
    alloc: Global,
    case: &Case,
    scoping: &mut Scoping,
) -> Result<[bool; 4], AllocError> {
    make(scoping, case)?;
    is_asked_once(alloc, case, scoping)
}

fn answers(alloc: Global, case: &Case) -> Result<[bool; 4], AllocError> {
    let mut scoping = Scoping::new(alloc);
    let told = make_and_ask(alloc, case, &mut scoping);
    drop(scoping);
    told
}

fn compare(rt: &impl Abort, alloc: Global, cases: &[Case]) -> Result<(), Fail> {
    for case in cases {
        let told = answers(alloc, case)?;
        assert_eq!(rt; told, [true; 4], "{}", case.name);
    }
    Ok(())
}

#[test]
fn what_waits_is_asked_once(rt: HostRuntime) -> Result<(), Fail> {
    compare(&rt, rt.alloc(), CASES)
}
