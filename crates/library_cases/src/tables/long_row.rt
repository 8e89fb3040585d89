//! A long row of edits of empty tables, written out by hand.
use super::edits::{Edit, Step};

/// The edits.
pub const LONG_ROW: &[Step] = &[
    (Edit::Reserve, "p[]"),
    (Edit::Scope(None), "0[] p[]"),
    (Edit::Scope(Some(0)), "0[] 1<0[] p[]"),
    (Edit::Symbol("a"), "0[] 1<0[] a@0 4-5 r[] u[] p[]"),
    (Edit::Bind("a"), "0[ a=0] 1<0[] a@0 4-5 r[] u[] p[]"),
    (Edit::Refer(0), "0[ a=0] 1<0[] a@0 4-5 r[] u[] p[]"),
    (Edit::Use(0, 0), "0[ a=0] 1<0[] a@0 4-5 r[] u[ 0] p[]"),
    (Edit::Name("b"), "0[ a=0] 1<0[] b@0 4-5 r[] u[ 0] p[]"),
    (Edit::NameAll("a"), "0[ a=0] 1<0[] a@0 4-5 r[] u[ 0] p[]"),
    (
        Edit::RenameSymbol("c"),
        "0[ c=0] 1<0[] c@0 4-5 r[] u[ 0] p[]",
    ),
    (
        Edit::RenameBinding("c", "d"),
        "0[ d=0] 1<0[] c@0 4-5 r[] u[ 0] p[]",
    ),
    (Edit::MoveInward("d"), "0[] 1<0[ d=0] c@0 4-5 r[] u[ 0] p[]"),
    (
        Edit::MoveSymbolOutward,
        "0[] 1<0[ d=0] c@0 4-5 r[] u[ 0] p[]",
    ),
    (Edit::TakeOverOutward, "0[ d=0] 1<0[] c@0 4-5 r[] u[ 0] p[]"),
    (Edit::Mark, "0[ d=0] 1<0[] c@0 4-5 r[] u[ 0] p[ 0]"),
    (Edit::Free("z"), LONG_ROW_END),
];

/// The tables at the end.
pub const LONG_ROW_END: &str = "0[ d=0] 1<0[] c@0 4-5 r[] u[ 0] z[ 0] p[ 0]";
