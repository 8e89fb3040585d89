//! `undefined` is a name like any other.
use example_caller::swapped::both_tables;
use scoping::Scoping;
use semantic_syntax::Ident;
use std::test::Fail;
use tree_json::read_program;

/// The tree of `var undefined; undefined; u;`.
const OWN_UNDEFINED: &str =
    r#"{"comments":[],"format":1,"goal":"script","lang":"js","source":"","rows":[[0,"root","Program",0,0,"",[]],[1,"body","VariableDeclaration",0,0,"var",[]],[2,"declarators","VariableDeclarator",0,0,"",[]],[3,"id","BindingIdentifier",0,0,"undefined",[]],[1,"body","ExpressionStatement",0,0,"",[]],[2,"expression","IdentifierReference",0,0,"undefined",[]],[1,"body","ExpressionStatement",0,0,"",[]],[2,"expression","IdentifierReference",0,0,"u",[]]]}"#;

/// Whether the first symbol has the name, and how many references with the other name are free.
fn told(scoping: &Scoping, name: &str, other: &str) -> (bool, usize) {
    let is_named = scoping.symbol_names().next() == Some(name);
    match scoping.root_unresolved_references().get(Ident::new(other)) {
        Some(free) => (is_named, free.len()),
        None => (is_named, 0),
    }
}

#[test]
fn undefined_is_bound_as_any_name(rt: HostRuntime) -> Result<(), Fail> {
    let program = read_program(rt.alloc(), OWN_UNDEFINED.as_bytes())?;
    let (first, second) = both_tables(rt.alloc(), &program)?;
    assert_eq!(rt; told(&first, "undefined", "u"), (true, 1));
    assert_eq!(rt; told(&second, "u", "undefined"), (true, 1));
    Ok(())
}
