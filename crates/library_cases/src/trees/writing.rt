//! What no clause says: that trees are written, and the texts meant.
use super::texts::{SWAPPED, TREE, TREE_WITH_TEXTS};
use semantic_tree::Program;
use std::alloc::{AllocError, Global};
use std::process::Abort;
use std::test::Fail;
use tree_json::{read_program, write_program, write_program_with_texts};

/// How a program is written.
enum Form {
    Plain,
    WithTexts,
    /// Plainly, once the names `a` and `b` are swapped.
    Swapped,
}

/// A text that is read, and how it is written then.
const CASES: &[(&str, Form, &str)] = &[
    (TREE, Form::Plain, TREE),
    (TREE, Form::WithTexts, TREE_WITH_TEXTS),
    (TREE_WITH_TEXTS, Form::Plain, TREE),
    (TREE_WITH_TEXTS, Form::WithTexts, TREE_WITH_TEXTS),
    (TREE, Form::Swapped, SWAPPED),
];

fn write_swapped(alloc: Global, program: &Program) -> Result<Vec<u8>, AllocError> {
    let swapped = program.swap_names(alloc, "a", "b")?;
    let written = write_program(alloc, &swapped);
    drop(swapped);
    written
}

fn write(alloc: Global, program: &Program, form: &Form) -> Result<Vec<u8>, AllocError> {
    match form {
        Form::Plain => write_program(alloc, program),
        Form::WithTexts => write_program_with_texts(alloc, program),
        Form::Swapped => write_swapped(alloc, program),
    }
}

fn rewrite(alloc: Global, text: &str, form: &Form) -> Result<Vec<u8>, Fail> {
    let program = read_program(alloc, text.as_bytes())?;
    let written = write(alloc, &program, form);
    drop(program);
    Ok(written?)
}

fn compare(rt: &impl Abort, alloc: Global, cases: &[(&str, Form, &str)]) -> Result<(), Fail> {
    for (text, form, wanted) in cases {
        let written = rewrite(alloc, text, form)?;
        assert_eq!(rt; written.as_slice(), wanted.as_bytes());
    }
    Ok(())
}

#[test]
fn each_program_has_its_text(rt: HostRuntime) -> Result<(), Fail> {
    compare(&rt, rt.alloc(), CASES)
}
