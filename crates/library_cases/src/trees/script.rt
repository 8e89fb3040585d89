//! What no clause says: that a script is made, as it is spelled.
use generated_tree::generated;
use std::test::Fail;

#[test]
fn makes_a_script_of_two_functions(rt: HostRuntime) -> Result<(), Fail> {
    let program = generated(rt.alloc(), 2)?;
    assert_eq!(rt;
        program.source_text(),
        "function f0(a = x) { var x; x = a; }\nfunction f1(a = x) { var x; x = a; }\n"
    );
    Ok(())
}
