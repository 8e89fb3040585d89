//! Rows of edits with the tables that they leave.
use super::edit_rows::{DECLARED, FUNCTION, IDLE, RENAMED, UPROOTED};
use super::edits::{Step, take};
use super::long_row::LONG_ROW;
use super::table_text::text_of;
use scoping::Scoping;
use std::alloc::Global;
use std::process::Abort;
use std::test::Fail;

/// The tables have the text.
fn shows(rt: &impl Abort, alloc: Global, scoping: &Scoping, wanted: &str) -> Result<(), Fail> {
    let text = text_of(alloc, scoping)?;
    assert_eq!(rt; text.as_str(), wanted);
    Ok(())
}

/// Makes the edits of the row, each of which leaves its tables.
fn make(rt: &impl Abort, alloc: Global, scoping: &mut Scoping, row: &[Step]) -> Result<(), Fail> {
    for (edit, wanted) in row {
        let taken = take(scoping, edit)?;
        assert!(rt; taken);
        shows(rt, alloc, scoping, wanted)?;
    }
    Ok(())
}

/// A clone has the same tables.
fn clone_shows(rt: &impl Abort, alloc: Global, scoping: &Scoping) -> Result<(), Fail> {
    let wanted = text_of(alloc, scoping)?;
    let copy = scoping.clone_in_with_semantic_ids_with_another_arena(alloc)?;
    let shown = shows(rt, alloc, &copy, wanted.as_str());
    drop(copy);
    shown
}

/// Makes the edits of the rows, each of which leaves its tables, and clones these in the end.
fn make_all(
    rt: &impl Abort,
    alloc: Global,
    scoping: &mut Scoping,
    rows: &[&[Step]],
) -> Result<(), Fail> {
    for row in rows {
        make(rt, alloc, scoping, row)?;
    }
    clone_shows(rt, alloc, scoping)
}

fn edit_empty_tables(rt: &impl Abort, alloc: Global, rows: &[&[Step]]) -> Result<(), Fail> {
    let mut scoping = Scoping::new(alloc);
    let made = make_all(rt, alloc, &mut scoping, rows);
    drop(scoping);
    made
}

#[test]
fn each_edit_leaves_its_tables(rt: HostRuntime) -> Result<(), Fail> {
    for rows in [
        [LONG_ROW, IDLE],
        [DECLARED, &[]],
        [FUNCTION, UPROOTED],
        [FUNCTION, RENAMED],
    ] {
        edit_empty_tables(&rt, rt.alloc(), rows.as_slice())?;
    }
    Ok(())
}
