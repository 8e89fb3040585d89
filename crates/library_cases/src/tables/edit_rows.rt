//! Short rows of edits, written out by hand.
use super::edits::{Edit, Step};
use super::long_row::LONG_ROW_END;

/// Edits of the tables at the end of the long row: names that are not bound, be they unknown or a symbol's, a symbol
/// without redeclarations, a free reference, and no marks.
pub const IDLE: &[Step] = &[
    (Edit::Unbind("q"), LONG_ROW_END),
    (Edit::Unbind("c"), LONG_ROW_END),
    (Edit::MoveInward("q"), LONG_ROW_END),
    (Edit::MoveInward("c"), LONG_ROW_END),
    (Edit::ClearRedeclarations, LONG_ROW_END),
    (Edit::DeleteReference, LONG_ROW_END),
    (Edit::RetainAll, LONG_ROW_END),
];

/// Edits of empty tables: a symbol that is declared again where it was declared first.
pub const DECLARED: &[Step] = &[
    (Edit::Scope(None), "0[] p[]"),
    (Edit::Scope(Some(0)), "0[] 1<0[] p[]"),
    (
        Edit::BoundSymbol("a", 0, 4),
        "0[ a=0] 1<0[] a@0 4-5 r[] u[] p[]",
    ),
    (Edit::Refer(0), "0[ a=0] 1<0[] a@0 4-5 r[] u[] p[]"),
    (Edit::Redeclare(4), "0[ a=0] 1<0[] a@0 4-5 r[ 4 4] u[] p[]"),
    (
        Edit::RemoveDeclaration(4),
        "0[ a=0] 1<0[] a@0 4-5 r[] u[] p[]",
    ),
    (Edit::Redeclare(9), "0[ a=0] 1<0[] a@0 4-5 r[ 9] u[] p[]"),
];

/// Edits of empty tables: the scopes, symbols and references of `let a; function f(b) { return b; } f(a);`.
pub const FUNCTION: &[Step] = &[
    (Edit::Scope(None), "0[] p[]"),
    (Edit::Scope(Some(0)), "0[] 1<0[] p[]"),
    (
        Edit::BoundSymbol("a", 0, 4),
        "0[ a=0] 1<0[] a@0 4-5 r[] u[] p[]",
    ),
    (
        Edit::BoundSymbol("f", 0, 16),
        "0[ a=0 f=1] 1<0[] a@0 4-5 r[] u[] f@0 16-17 r[] u[] p[]",
    ),
    (Edit::BoundSymbol("b", 1, 18), FUNCTION_SYMBOLS),
    (Edit::Refer(1), FUNCTION_SYMBOLS),
    (Edit::Refer(0), FUNCTION_SYMBOLS),
    (Edit::Refer(0), FUNCTION_SYMBOLS),
    (
        Edit::Use(2, 0),
        "0[ a=0 f=1] 1<0[ b=2] a@0 4-5 r[] u[] f@0 16-17 r[] u[] b@1 18-19 r[] u[ 0] p[]",
    ),
    (
        Edit::Use(1, 1),
        "0[ a=0 f=1] 1<0[ b=2] a@0 4-5 r[] u[] f@0 16-17 r[] u[ 1] b@1 18-19 r[] u[ 0] p[]",
    ),
    (
        Edit::Use(0, 2),
        "0[ a=0 f=1] 1<0[ b=2] a@0 4-5 r[] u[ 2] f@0 16-17 r[] u[ 1] b@1 18-19 r[] u[ 0] p[]",
    ),
];

/// The tables once the function's scopes and symbols are there.
const FUNCTION_SYMBOLS: &str =
    "0[ a=0 f=1] 1<0[ b=2] a@0 4-5 r[] u[] f@0 16-17 r[] u[] b@1 18-19 r[] u[] p[]";

/// An edit of the function's tables.
pub const UPROOTED: &[Step] = &[(
    Edit::Uproot,
    "0[ a=0 f=1] 1[ b=2] a@0 4-5 r[] u[ 2] f@0 16-17 r[] u[ 1] b@1 18-19 r[] u[ 0] p[]",
)];

/// Edits of the function's tables: a symbol is renamed alone, so its new name is not found where it is to be moved.
pub const RENAMED: &[Step] = &[
    (
        Edit::Name("z"),
        "0[ a=0 f=1] 1<0[ b=2] z@0 4-5 r[] u[ 2] f@0 16-17 r[] u[ 1] b@1 18-19 r[] u[ 0] p[]",
    ),
    (
        Edit::MoveSymbolInward,
        "0[ a=0 f=1] 1<0[ b=2] z@1 4-5 r[] u[ 2] f@0 16-17 r[] u[ 1] b@1 18-19 r[] u[ 0] p[]",
    ),
];
