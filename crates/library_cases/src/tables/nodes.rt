//! Nodes that are added by hand.
use node_store::AstNodes;
use semantic_syntax::{NodeFlags, NodeId, ScopeId};
use semantic_tree::{AstType, Program, Role};
use std::alloc::{AllocError, Global};
use std::test::Fail;
use tree_json::read_program;

/// The tree of `;`.
const EMPTY_STATEMENT: &str =
    r#"{"comments":[],"format":1,"goal":"script","lang":"js","source":"","rows":[[0,"root","Program",0,0,"",[]],[1,"body","EmptyStatement",0,0,"",[]]]}"#;

/// How many nodes there are once a program and its first statement are added.
fn added(alloc: Global, program: &Program) -> Result<usize, AllocError> {
    let root = program.root();
    let scope = ScopeId::new(0);
    let flags = NodeFlags::empty();
    let mut nodes = AstNodes::new(alloc);
    nodes.reserve(2)?;
    match (root.ty(), root.child(Role::Body)) {
        (AstType::Program, Some(statement)) if nodes.len() == 0 => {
            nodes.add_program_node(root, scope, flags)?;
            nodes.add_node(NodeId::new(1), statement, scope, NodeId::ROOT, flags)?;
        }
        _ => {}
    }
    Ok(nodes.len())
}

#[test]
fn nodes_are_added_below_earlier_ones(rt: HostRuntime) -> Result<(), Fail> {
    let program = read_program(rt.alloc(), EMPTY_STATEMENT.as_bytes())?;
    assert_eq!(rt; added(rt.alloc(), &program)?, 2);
    Ok(())
}
