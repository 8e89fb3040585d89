//! The elements of a class that a name means.
use class_table::ClassTable;
use semantic::{SemanticBuilder, drop_analysis};
use semantic_syntax::{ClassId, Ident};
use semantic_tree::Program;
use std::alloc::{AllocError, Global};
use std::test::Fail;
use tree_json::read_program;

/// The tree of `class C { get #x() {} #y; m() {} set #x(v) {} accessor #a }`.
const CLASS: &str =
    r#"{"comments":[],"format":1,"goal":"script","lang":"js","source":"","rows":[[0,"root","Program",0,0,"",[]],[1,"body","Class",0,0,"declaration",[]],[2,"id","BindingIdentifier",0,0,"C",[]],[2,"body","ClassBody",0,0,"",[]],[3,"body","MethodDefinition",0,0,"get",[]],[4,"key","PrivateIdentifier",0,0,"x",[]],[4,"value","Function",0,0,"expression",[]],[5,"params","FormalParameters",0,0,"formal",[]],[5,"body","FunctionBody",0,0,"",[]],[3,"body","PropertyDefinition",0,0,"",[]],[4,"key","PrivateIdentifier",0,0,"y",[]],[3,"body","MethodDefinition",0,0,"method",[]],[4,"key","IdentifierName",0,0,"m",[]],[4,"value","Function",0,0,"expression",[]],[5,"params","FormalParameters",0,0,"formal",[]],[5,"body","FunctionBody",0,0,"",[]],[3,"body","MethodDefinition",0,0,"set",[]],[4,"key","PrivateIdentifier",0,0,"x",[]],[4,"value","Function",0,0,"expression",[]],[5,"params","FormalParameters",0,0,"formal",[]],[6,"items","FormalParameter",0,0,"",[]],[7,"pattern","BindingIdentifier",0,0,"v",[]],[5,"body","FunctionBody",0,0,"",[]],[3,"body","AccessorProperty",0,0,"",[]],[4,"key","PrivateIdentifier",0,0,"a",[]]]}"#;

/// A name, whether it is private, and the numbers of the elements that it means.
const MEANT: &[(&str, bool, &[usize])] = &[
    ("x", true, &[0, 3]),
    ("x", false, &[]),
    ("y", true, &[1]),
    ("m", false, &[2]),
    ("m", true, &[]),
    ("a", true, &[4]),
    ("", true, &[]),
];

/// The numbers of the elements of the first class that the name means.
fn meant_in(
    alloc: Global,
    classes: &ClassTable<'_>,
    name: &str,
    is_private: bool,
) -> Result<Vec<usize>, AllocError> {
    let mut numbers = Vec::new(alloc);
    if classes.len() == 0 {
        return Ok(numbers);
    }
    let ids = classes.get_element_ids(alloc, ClassId::new(0), Ident::new(name), is_private)?;
    for id in ids.as_slice() {
        numbers.push(id.index())?;
    }
    Ok(numbers)
}

fn meant(
    alloc: Global,
    program: &Program,
    name: &str,
    is_private: bool,
) -> Result<Vec<usize>, AllocError> {
    let ret = SemanticBuilder::new()
        .with_class_table(true)
        .build(alloc, program)?;
    let numbers = meant_in(alloc, ret.semantic.classes(), name, is_private)?;
    drop_analysis(ret);
    Ok(numbers)
}

#[test]
fn a_name_means_elements(rt: HostRuntime) -> Result<(), Fail> {
    let program = read_program(rt.alloc(), CLASS.as_bytes())?;
    for (name, is_private, numbers) in MEANT {
        let found = meant(rt.alloc(), &program, name, *is_private)?;
        assert_eq!(rt; found.as_slice(), *numbers, "{name}");
    }
    Ok(())
}
