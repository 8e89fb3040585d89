//! Look-ups over a source of bindings that is no `Scoping`.
use crate::nest::Nest;
use resolver::{Outcome, UnresolvedReference, UnresolvedReferences, resolve_all, resolve_header};
use semantic_syntax::{Ident, ReferenceFlags, ReferenceId, ScopeFlags, Steps};
use std::alloc::{AllocError, Global};
use std::process::Abort;
use std::test::Fail;

/// What becomes of a reference. Scopes and symbols are told by the names that are bound.
#[derive(Clone, Copy)]
enum Answer {
    Means(&'static str),
    Free,
    WaitsIn(&'static str),
}

impl Answer {
    fn is(self, nest: &Nest, outcome: Outcome) -> bool {
        match (self, outcome) {
            (Answer::Means(name), Outcome::Tied(symbol)) => {
                matches!(nest.scope_of(name), Some(scope) if scope.index() == symbol.index())
            }
            (Answer::WaitsIn(name), Outcome::Pending(scope)) => nest.scope_of(name) == Some(scope),
            (Answer::Free, Outcome::Free) => true,
            _ => false,
        }
    }
}

/// A reference in the innermost of some scopes, and what becomes of it.
struct Case {
    name: &'static str,
    flags: ScopeFlags,
    way: ReferenceFlags,
    /// At the end of the header whose scope binds `b`.
    header: Answer,
    header_probes: u64,
    /// In the end, if it is looked up then alone.
    end: Answer,
    end_probes: u64,
}

/// What the scopes bind, from the outermost inward.
const NAMES: &[&str] = &["a", "b", "arguments", "d"];

const CASES: &[Case] = &[
    Case {
        name: "d",
        flags: ScopeFlags::Function,
        way: ReferenceFlags::Read,
        header: Answer::Means("d"),
        header_probes: 1,
        end: Answer::Means("d"),
        end_probes: 1,
    },
    Case {
        name: "a",
        flags: ScopeFlags::Function,
        way: ReferenceFlags::Read,
        header: Answer::WaitsIn("a"),
        header_probes: 3,
        end: Answer::Means("a"),
        end_probes: 4,
    },
    Case {
        name: "x",
        flags: ScopeFlags::Function,
        way: ReferenceFlags::Read,
        header: Answer::WaitsIn("a"),
        header_probes: 3,
        end: Answer::Free,
        end_probes: 4,
    },
    // A function that is no arrow binds it itself.
    Case {
        name: "arguments",
        flags: ScopeFlags::Function,
        way: ReferenceFlags::Read,
        header: Answer::Free,
        header_probes: 1,
        end: Answer::Free,
        end_probes: 1,
    },
    Case {
        name: "arguments",
        flags: ScopeFlags::Top,
        way: ReferenceFlags::Read,
        header: Answer::Means("arguments"),
        header_probes: 2,
        end: Answer::Means("arguments"),
        end_probes: 2,
    },
    // No variable is a type.
    Case {
        name: "a",
        flags: ScopeFlags::Top,
        way: ReferenceFlags::TypeFlag,
        header: Answer::WaitsIn("a"),
        header_probes: 3,
        end: Answer::Free,
        end_probes: 4,
    },
];

fn is_alone(answer: Answer, nest: &Nest, outcomes: &[Outcome]) -> bool {
    match outcomes {
        [only] => answer.is(nest, *only),
        _ => false,
    }
}

/// Whether the header ends as it is to, with as many probes as it is to, and so in the end.
fn asked(alloc: Global, case: &Case, nest: &Nest) -> Result<[bool; 4], AllocError> {
    let (Some(innermost), Some(header)) = (nest.scope_of("d"), nest.scope_of("b")) else {
        return Ok([false; 4]);
    };
    let mut waiting = UnresolvedReferences::new(alloc);
    waiting.push(UnresolvedReference {
        name: Ident::new(case.name),
        reference_id: ReferenceId::new(0),
        lookup_scope_id: innermost,
    })?;
    let mut header_steps = Steps::new(());
    let header = resolve_header(alloc, &waiting, 0, header, nest, &mut header_steps)?;
    let mut end_steps = Steps::new(());
    let end = resolve_all(alloc, &waiting, nest, &mut end_steps)?;
    Ok([
        is_alone(case.header, nest, header.as_slice()),
        header_steps.count() == case.header_probes,
        is_alone(case.end, nest, end.as_slice()),
        end_steps.count() == case.end_probes,
    ])
}

fn compare(rt: &impl Abort, alloc: Global, cases: &[Case]) -> Result<(), Fail> {
    for case in cases {
        let nest = Nest::new(alloc, NAMES, case.flags, case.way)?;
        let told = asked(alloc, case, &nest)?;
        assert_eq!(rt; told, [true; 4], "{}", case.name);
    }
    Ok(())
}

#[test]
fn another_source_is_asked_and_counted(rt: HostRuntime) -> Result<(), Fail> {
    compare(&rt, rt.alloc(), CASES)
}
