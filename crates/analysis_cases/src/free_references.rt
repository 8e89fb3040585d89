//! Questions on references without symbol, to an analysis that keeps the nodes.
use crate::reports::cases::FUNCTION;
use semantic::{IsGlobalReference, Semantic, SemanticBuilder, drop_analysis};
use semantic_syntax::{NodeId, ReferenceId};
use semantic_tree::Program;
use std::alloc::{AllocError, Global};
use std::test::Fail;
use tree_json::read_program;

/// The tree of `let a; a; x`.
const ONE_FREE: &str =
    r#"{"comments":[],"format":1,"goal":"script","lang":"js","source":"","rows":[[0,"root","Program",0,0,"",[]],[1,"body","VariableDeclaration",0,0,"let",[]],[2,"declarators","VariableDeclarator",0,0,"",[]],[3,"id","BindingIdentifier",0,0,"a",[]],[1,"body","ExpressionStatement",0,0,"",[]],[2,"expression","IdentifierReference",0,0,"a",[]],[1,"body","ExpressionStatement",0,0,"",[]],[2,"expression","IdentifierReference",0,0,"x",[]]]}"#;

/// The nodes that are unresolved references, of the first eight.
fn unresolved_nodes(alloc: Global, semantic: &Semantic<'_>) -> Result<Vec<u32>, AllocError> {
    let mut found = Vec::new(alloc);
    for number in 0..8 {
        let node = NodeId::new(number);
        if node.index() < semantic.nodes().len() && semantic.is_unresolved_reference(node) {
            found.push(number)?;
        }
    }
    Ok(found)
}

/// The references without symbol, and one that no table holds.
fn global_references(alloc: Global, semantic: &Semantic<'_>) -> Result<Vec<u32>, AllocError> {
    let mut found = Vec::new(alloc);
    for number in [0, 1, 2, 4_294_967_294] {
        if ReferenceId::new(number).is_global_reference(semantic.scoping(), semantic.tables()) {
            found.push(number)?;
        }
    }
    Ok(found)
}

fn free_in(alloc: Global, program: &Program) -> Result<(Vec<u32>, Vec<u32>), AllocError> {
    let ret = SemanticBuilder::new()
        .with_build_nodes(true)
        .build(alloc, program)?;
    let nodes = unresolved_nodes(alloc, &ret.semantic)?;
    let references = global_references(alloc, &ret.semantic)?;
    drop_analysis(ret);
    Ok((nodes, references))
}

#[test]
fn what_is_free_is_told_by_node_and_by_reference(rt: HostRuntime) -> Result<(), Fail> {
    let program = read_program(rt.alloc(), ONE_FREE.as_bytes())?;
    let (nodes, references) = free_in(rt.alloc(), &program)?;
    assert_eq!(rt; nodes.as_slice(), [7].as_slice());
    assert_eq!(rt; references.as_slice(), [1].as_slice());
    Ok(())
}
