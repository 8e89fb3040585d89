//! How many scopes the look-ups of a program ask, by the counter that a build is handed.
use crate::reports::cases::FUNCTION;
use crate::reports::inputs::{Input, input_bytes};
use semantic::{SemanticBuilder, drop_analysis};
use semantic_syntax::Steps;
use semantic_tree::Program;
use std::alloc::{AllocError, Global};
use std::test::Fail;
use tree_json::read_program;

/// The tree of `x; var x;`.
const USE_BEFORE_VARIABLE: &str =
    r#"{"comments":[],"format":1,"goal":"script","lang":"js","rows":[[0,"root","Program",0,9,"",[]],[1,"body","ExpressionStatement",0,1,"",[]],[2,"expression","IdentifierReference",0,1,"x",[]],[1,"body","VariableDeclaration",7,8,"var",[]],[2,"declarators","VariableDeclarator",7,8,"",[]],[3,"id","BindingIdentifier",7,8,"x",[]]],"source":"x; var x;"}"#;

/// The tree of `function f(a = function g(b = y) { var y; }) { var y; } var y;`.
const HEADER_IN_HEADER: &str =
    r#"{"comments":[],"format":1,"goal":"script","lang":"js","rows":[[0,"root","Program",0,62,"",[]],[1,"body","Function",9,52,"declaration",[]],[2,"id","BindingIdentifier",9,10,"f",[]],[2,"params","FormalParameters",11,40,"formal",[]],[3,"items","FormalParameter",11,40,"",[]],[4,"pattern","BindingIdentifier",11,12,"a",[]],[4,"initializer","Function",24,40,"expression",[]],[5,"id","BindingIdentifier",24,25,"g",[]],[5,"params","FormalParameters",26,31,"formal",[]],[6,"items","FormalParameter",26,31,"",[]],[7,"pattern","BindingIdentifier",26,27,"b",[]],[7,"initializer","IdentifierReference",30,31,"y",[]],[5,"body","FunctionBody",39,40,"",[]],[6,"body","VariableDeclaration",39,40,"var",[]],[7,"declarators","VariableDeclarator",39,40,"",[]],[8,"id","BindingIdentifier",39,40,"y",[]],[2,"body","FunctionBody",51,52,"",[]],[3,"body","VariableDeclaration",51,52,"var",[]],[4,"declarators","VariableDeclarator",51,52,"",[]],[5,"id","BindingIdentifier",51,52,"y",[]],[1,"body","VariableDeclaration",60,61,"var",[]],[2,"declarators","VariableDeclarator",60,61,"",[]],[3,"id","BindingIdentifier",60,61,"y",[]]],"source":"function f(a = function g(b = y) { var y; }) { var y; } var y;"}"#;

/// A program, and how many scopes its look-ups ask. A look-up goes on behind a header from where it had come to.
const COUNTS: &[(Input, u64)] = &[
    (Input::Text(USE_BEFORE_VARIABLE), 1),
    (Input::Text(HEADER_IN_HEADER), 3),
    (Input::Text(FUNCTION), 3),
    (Input::Functions(300), 301),
];

fn steps_of(alloc: Global, program: &Program) -> Result<u64, AllocError> {
    let mut steps = Steps::new(());
    let ret = SemanticBuilder::new().build_counted(alloc, program, &mut steps)?;
    drop_analysis(ret);
    Ok(steps.count())
}

#[test]
fn each_scope_that_is_asked_is_counted(rt: HostRuntime) -> Result<(), Fail> {
    for (input, steps) in COUNTS {
        let bytes = input_bytes(rt.alloc(), *input)?;
        let program = read_program(rt.alloc(), bytes.as_slice())?;
        assert_eq!(rt; steps_of(rt.alloc(), &program)?, *steps);
    }
    Ok(())
}
