//! Members of classes that are declared by hand.
use class_table::ClassTableBuilder;
use semantic_syntax::{ClassId, NodeId};
use semantic_tree::{AstKind, AstType, Role};
use std::alloc::{AllocError, Global};
use std::test::Fail;
use tree_json::read_program;

/// The tree of `class C { m() {} #x; accessor #a; }`.
const CLASS: &str =
    r#"{"comments":[],"format":1,"goal":"script","lang":"js","source":"","rows":[[0,"root","Program",0,0,"",[]],[1,"body","Class",0,0,"declaration",[]],[2,"id","BindingIdentifier",0,0,"C",[]],[2,"body","ClassBody",0,0,"",[]],[3,"body","MethodDefinition",0,0,"method",[]],[4,"key","IdentifierName",0,0,"m",[]],[4,"value","Function",0,0,"expression",[]],[5,"params","FormalParameters",0,0,"formal",[]],[5,"body","FunctionBody",0,0,"",[]],[3,"body","PropertyDefinition",0,0,"",[]],[4,"key","PrivateIdentifier",0,0,"x",[]],[3,"body","AccessorProperty",0,0,"",[]],[4,"key","PrivateIdentifier",0,0,"a",[]]]}"#;

/// How many elements the member makes in a class that has none yet.
fn made_by(alloc: Global, member: AstKind<'_>) -> Result<usize, AllocError> {
    let mut builder = ClassTableBuilder::new(alloc);
    let class = builder.classes.declare_class(None, NodeId::new(1))?;
    builder.current_class_id = Some(class);
    match member.ty() {
        AstType::AccessorProperty => builder.declare_class_accessor(member)?,
        AstType::PropertyDefinition => builder.declare_class_property(member)?,
        AstType::MethodDefinition => builder.declare_class_method(member)?,
        _ => {}
    }
    let table = builder.build();
    if table.len() != 1 {
        return Ok(0);
    }
    Ok(table.elements_of(ClassId::new(0)).len())
}

#[test]
fn each_member_makes_its_element(rt: HostRuntime) -> Result<(), Fail> {
    let program = read_program(rt.alloc(), CLASS.as_bytes())?;
    let Some(class) = program.root().child(Role::Body) else {
        return Ok(());
    };
    let Some(body) = class.child(Role::Body) else {
        return Ok(());
    };
    for (_, member) in body.node().children.as_slice() {
        assert_eq!(rt; made_by(rt.alloc(), AstKind::new(member))?, 1);
    }
    Ok(())
}
