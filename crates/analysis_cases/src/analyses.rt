//! What builders keep and tell, and the state of a namespace.
use semantic::{ModuleInstanceState, SemanticBuilder, Stats, drop_analysis, module_instance_state};
use semantic_syntax::NodeId;
use semantic_tree::Program;
use std::alloc::{AllocError, Global};
use std::test::Fail;
use tree_json::read_program;

/// The tree of `namespace N {}`.
const EMPTY_NAMESPACE: &str =
    r#"{"comments":[],"format":1,"goal":"script","lang":"ts","source":"","rows":[[0,"root","Program",0,0,"",[]],[1,"body","TSNamespaceDeclaration",0,0,"",[]],[2,"id","BindingIdentifier",0,0,"N",[]],[2,"body","TSModuleBlock",0,0,"",[]]]}"#;

/// The tree of `class C { #x; m() { #y in this } }`.
const FOREIGN_NAME: &str =
    r#"{"comments":[],"format":1,"goal":"script","lang":"js","source":"","rows":[[0,"root","Program",0,0,"",[]],[1,"body","Class",0,0,"declaration",[]],[2,"id","BindingIdentifier",0,0,"C",[]],[2,"body","ClassBody",0,0,"",[]],[3,"body","PropertyDefinition",0,0,"",[]],[4,"key","PrivateIdentifier",0,0,"x",[]],[3,"body","MethodDefinition",0,0,"method",[]],[4,"key","IdentifierName",0,0,"m",[]],[4,"value","Function",0,0,"expression",[]],[5,"params","FormalParameters",0,0,"formal",[]],[5,"body","FunctionBody",0,0,"",[]],[6,"body","ExpressionStatement",0,0,"",[]],[7,"expression","PrivateInExpression",0,0,"",[]],[8,"left","PrivateIdentifier",0,0,"y",[]],[8,"right","ThisExpression",0,0,"",[]]]}"#;

/// How many nodes, classes and diagnostics the analysis has. The sizes of its tables are as they are counted.
fn kept(
    alloc: Global,
    program: &Program,
    builder: SemanticBuilder,
) -> Result<[usize; 3], AllocError> {
    let ret = builder.build(alloc, program)?;
    Stats::count(program).assert_accurate(ret.semantic.stats());
    let kept = [
        ret.semantic.nodes().len(),
        ret.semantic.classes().len(),
        ret.diagnostics.len(),
    ];
    drop_analysis(ret);
    Ok(kept)
}

#[test]
fn builders_keep_what_they_are_asked_for(rt: HostRuntime) -> Result<(), Fail> {
    let alloc = rt.alloc();
    let program = read_program(alloc, FOREIGN_NAME.as_bytes())?;
    let huge = Stats::new(4_000_000_000, 4_000_000_000, 4_000_000_000, 4_000_000_000);
    for (builder, wanted) in [
        (SemanticBuilder::new().with_stats(huge), [0, 0, 0]),
        (SemanticBuilder::new().with_build_nodes(true), [15, 0, 0]),
        (
            SemanticBuilder::new()
                .with_class_table(true)
                .with_excess_capacity(u32::MAX),
            [0, 1, 0],
        ),
        (SemanticBuilder::new_compiler(), [0, 1, 1]),
        (SemanticBuilder::new_linter(), [15, 1, 1]),
    ] {
        assert_eq!(rt; kept(alloc, &program, builder)?, wanted);
    }
    Ok(())
}

#[test]
fn a_namespace_of_nothing_is_no_value(rt: HostRuntime) -> Result<(), Fail> {
    let program = read_program(rt.alloc(), EMPTY_NAMESPACE.as_bytes())?;
    let state = module_instance_state(rt.alloc(), &program, NodeId::new(1))?;
    assert!(rt; matches!(state, ModuleInstanceState::NonInstantiated));
    Ok(())
}

/// Sizes, the thousandths by which they grow, and what they are then.
const GROWN: &[([u32; 3], u32, [u32; 3])] = &[
    ([10, 999, 0], 0, [10, 999, 0]),
    ([10, 999, 0], 1, [10, 999, 0]),
    ([10, 1_000, 0], 100, [11, 1_100, 0]),
    ([1, 3, 4_000_000_000], 500, [1, 4, u32::MAX]),
    ([1, 2, 3], u32::MAX, [4_294_968, 8_589_936, 12_884_904]),
];

#[test]
fn sizes_grow_by_thousandths(rt: HostRuntime) {
    for ([scopes, symbols, references], thousandths, grown) in GROWN {
        let sizes = Stats::new(7, *scopes, *symbols, *references).increase_by(*thousandths);
        assert_eq!(rt; sizes.nodes, 7);
        assert_eq!(rt; [sizes.scopes, sizes.symbols, sizes.references], *grown);
    }
}
