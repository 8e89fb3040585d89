//! Trees as texts.

/// The tree of `let a = 1; a = 2`.
pub const TREE: &str =
    r#"{"comments":[],"format":1,"goal":"script","lang":"js","rows":[[0,"root","Program",0,16,"",[]],[1,"body","VariableDeclaration",0,10,"let",[]],[2,"declarators","VariableDeclarator",4,9,"",[]],[3,"id","BindingIdentifier",4,5,"a",[]],[3,"init","NumericLiteral",8,9,"1",["decimal"]],[1,"body","ExpressionStatement",11,16,"",[]],[2,"expression","AssignmentExpression",11,16,"=",[]],[3,"left","IdentifierReference",11,12,"a",[]],[3,"right","NumericLiteral",15,16,"2",["decimal"]]],"source":"let a = 1; a = 2"}"#;

/// The same tree with a list of texts.
pub const TREE_WITH_TEXTS: &str =
    r#"{"comments":[],"format":2,"goal":"script","lang":"js","rows":[[0,"root","Program",0,16,0,[]],[1,"body","VariableDeclaration",0,10,1,[]],[2,"declarators","VariableDeclarator",4,9,0,[]],[3,"id","BindingIdentifier",4,5,2,[]],[3,"init","NumericLiteral",8,9,3,["decimal"]],[1,"body","ExpressionStatement",11,16,0,[]],[2,"expression","AssignmentExpression",11,16,4,[]],[3,"left","IdentifierReference",11,12,2,[]],[3,"right","NumericLiteral",15,16,5,["decimal"]]],"source":"let a = 1; a = 2","texts":["","let","a","1","=","2"]}"#;

/// The tree with the name `b`, as text of the same source.
pub const SWAPPED: &str =
    r#"{"comments":[],"format":1,"goal":"script","lang":"js","rows":[[0,"root","Program",0,16,"",[]],[1,"body","VariableDeclaration",0,10,"let",[]],[2,"declarators","VariableDeclarator",4,9,"",[]],[3,"id","BindingIdentifier",4,5,"b",[]],[3,"init","NumericLiteral",8,9,"1",["decimal"]],[1,"body","ExpressionStatement",11,16,"",[]],[2,"expression","AssignmentExpression",11,16,"=",[]],[3,"left","IdentifierReference",11,12,"b",[]],[3,"right","NumericLiteral",15,16,"2",["decimal"]]],"source":"let a = 1; a = 2"}"#;
