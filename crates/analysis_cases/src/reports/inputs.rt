//! Inputs, as they stand or as they are made.
use super::cases::FUNCTION;
use std::alloc::{AllocError, Global};

/// A small program.
#[derive(Clone, Copy)]
pub enum Tree {
    /// An empty one.
    Empty,
    /// The same with its texts in a list.
    Listed,
    /// `let a = 1; a = 2`.
    Assignment,
    /// `let a; function f(b) { return b; } f(a);`.
    Function,
}

const EMPTY: &str =
    r#"{"format":1,"source":"","goal":"script","lang":"js","comments":[],"rows":[[0,"root","Program",0,0,"",[]]]}"#;

const LISTED: &str =
    r#"{"format":2,"source":"","goal":"script","lang":"js","comments":[],"rows":[[0,"root","Program",0,0,0,[]]],"texts":[""]}"#;

const ASSIGNMENT: &str =
    r#"{"comments":[],"format":1,"goal":"script","lang":"js","rows":[[0,"root","Program",0,16,"",[]],[1,"body","VariableDeclaration",0,10,"let",[]],[2,"declarators","VariableDeclarator",4,9,"",[]],[3,"id","BindingIdentifier",4,5,"a",[]],[3,"init","NumericLiteral",8,9,"1",["decimal"]],[1,"body","ExpressionStatement",11,16,"",[]],[2,"expression","AssignmentExpression",11,16,"=",[]],[3,"left","IdentifierReference",11,12,"a",[]],[3,"right","NumericLiteral",15,16,"2",["decimal"]]],"source":"let a = 1; a = 2"}"#;

/// An input, or several.
#[derive(Clone, Copy)]
pub enum Input {
    /// This text.
    Text(&'static str),
    /// The tree.
    Whole(Tree),
    /// The tree with the second text in the place where the first one stands first.
    Changed(Tree, &'static str, &'static str),
    /// Each front of the tree but the whole.
    Cut(Tree),
    /// The tree of so many blocks, each inside the one before.
    Blocks(u32),
    /// The tree of `let v = function (a = function (a = .. x) {}) {}` with so many functions.
    Functions(u16),
    /// The tree of so many namespaces `N0`, `N1`, .., each of which exports the next one, and the last of which exports the
    /// first. A constant enum stands in the one of the number.
    Ring { length: u16, enum_in: Option<u16> },
    /// So many spaces.
    Spaces(usize),
}

/// The text of a tree.
pub fn text_of(tree: Tree) -> &'static str {
    match tree {
        Tree::Empty => EMPTY,
        Tree::Listed => LISTED,
        Tree::Assignment => ASSIGNMENT,
        Tree::Function => FUNCTION,
    }
}

fn changed(alloc: Global, text: &str, old: &str, new: &str) -> Result<String, AllocError> {
    match text.split_once(old) {
        Some((before, behind)) => format!(in alloc; "{before}{new}{behind}"),
        None => String::from_str(alloc, text),
    }
}

/// A tree in the language, up to its first row, which is that of the program.
fn begun(alloc: Global, language: &str) -> Result<String, AllocError> {
    let mut text = String::from_str(alloc, r#"{"format":1,"source":"","goal":"script","#)?;
    write!(
        text,
        "\"lang\":\"{language}\",\"comments\":[],\"rows\":[[0,\"root\""
    )?;
    text.push_str(r#","Program",0,0,"",[]]"#)?;
    Ok(text)
}

/// Adds a row whose span is empty and which has no mark.
fn push_row(
    tree: &mut String,
    depth: u32,
    role: &str,
    kind: &str,
    text: &str,
) -> Result<(), AllocError> {
    write!(tree, ",[{depth},\"{role}\",\"{kind}\",0,0,\"{text}\",[]]")
}

fn blocks(alloc: Global, count: u32) -> Result<String, AllocError> {
    let mut tree = begun(alloc, "js")?;
    for depth in 0..count {
        push_row(&mut tree, depth + 1, "body", "BlockStatement", "")?;
    }
    tree.push_str("]}")?;
    Ok(tree)
}

/// Adds the function inside so many others up to its one parameter, whose default is to follow.
fn push_function(tree: &mut String, before: u16) -> Result<(), AllocError> {
    let role = if before == 0 { "init" } else { "initializer" };
    let depth = 3 * u32::from(before) + 3;
    push_row(tree, depth, role, "Function", "expression")?;
    push_row(tree, depth + 1, "params", "FormalParameters", "formal")?;
    push_row(tree, depth + 2, "items", "FormalParameter", "")?;
    push_row(tree, depth + 3, "pattern", "BindingIdentifier", "a")
}

/// Adds so many functions, each in the default of the one before, up to the innermost default, which is to follow.
fn push_functions(tree: &mut String, count: u16) -> Result<(), AllocError> {
    for before in 0..count {
        push_function(tree, before)?;
    }
    Ok(())
}

/// Adds the bodies of so many functions, the innermost first.
fn push_bodies(tree: &mut String, count: u16) -> Result<(), AllocError> {
    for behind in 0..count {
        let around = u32::from(count - behind);
        push_row(tree, 3 * around + 1, "body", "FunctionBody", "")?;
    }
    Ok(())
}

/// The tree of `let v = function (a = function (a = .. x) {}) {}` with so many functions, the innermost at three times their
/// number.
fn functions(alloc: Global, count: u16) -> Result<String, AllocError> {
    let mut tree = begun(alloc, "js")?;
    push_row(&mut tree, 1, "body", "VariableDeclaration", "let")?;
    push_row(&mut tree, 2, "declarators", "VariableDeclarator", "")?;
    push_row(&mut tree, 3, "id", "BindingIdentifier", "v")?;
    push_functions(&mut tree, count)?;
    let innermost = 3 * u32::from(count);
    push_row(
        &mut tree,
        innermost + 3,
        "initializer",
        "IdentifierReference",
        "x",
    )?;
    push_bodies(&mut tree, count)?;
    tree.push_str("]}")?;
    Ok(tree)
}

/// Adds the namespace of the number, which exports the one of another number.
fn push_namespace(tree: &mut String, number: u16, exported: u16) -> Result<(), AllocError> {
    push_row(tree, 1, "body", "TSNamespaceDeclaration", "")?;
    write!(
        tree,
        ",[2,\"id\",\"BindingIdentifier\",0,0,\"N{number}\",[]]"
    )?;
    push_row(tree, 2, "body", "TSModuleBlock", "")?;
    push_row(tree, 3, "body", "ExportNamedDeclaration", "")?;
    push_row(tree, 4, "specifiers", "ExportSpecifier", "")?;
    write!(
        tree,
        ",[5,\"local\",\"IdentifierReference\",0,0,\"N{exported}\",[]]"
    )?;
    write!(
        tree,
        ",[5,\"exported\",\"IdentifierName\",0,0,\"N{exported}\",[]]"
    )
}

/// Adds `const enum E { A }` to a namespace.
fn push_enum(tree: &mut String) -> Result<(), AllocError> {
    tree.push_str(r#",[3,"body","TSEnumDeclaration",0,0,"",["const"]]"#)?;
    push_row(tree, 4, "id", "BindingIdentifier", "E")?;
    push_row(tree, 4, "body", "TSEnumBody", "")?;
    push_row(tree, 5, "members", "TSEnumMember", "")?;
    push_row(tree, 6, "id", "IdentifierName", "A")
}

fn ring(alloc: Global, length: u16, enum_in: Option<u16>) -> Result<String, AllocError> {
    let mut tree = begun(alloc, "ts")?;
    for number in 0..length {
        let next = number + 1;
        push_namespace(&mut tree, number, if next == length { 0 } else { next })?;
        if enum_in == Some(number) {
            push_enum(&mut tree)?;
        }
    }
    tree.push_str("]}")?;
    Ok(tree)
}

fn spaces(alloc: Global, count: usize) -> Result<Vec<u8>, AllocError> {
    let mut bytes = Vec::new(alloc);
    bytes.resize(count, b' ')?;
    Ok(bytes)
}

fn bytes_of(alloc: Global, text: &str) -> Result<Vec<u8>, AllocError> {
    Vec::from_slice(alloc, text.as_bytes())
}

/// The bytes of an input that is one.
pub fn input_bytes(alloc: Global, input: Input) -> Result<Vec<u8>, AllocError> {
    match input {
        Input::Text(text) => bytes_of(alloc, text),
        Input::Whole(tree) | Input::Cut(tree) => bytes_of(alloc, text_of(tree)),
        Input::Changed(tree, old, new) => {
            bytes_of(alloc, changed(alloc, text_of(tree), old, new)?.as_str())
        }
        Input::Blocks(count) => bytes_of(alloc, blocks(alloc, count)?.as_str()),
        Input::Functions(count) => bytes_of(alloc, functions(alloc, count)?.as_str()),
        Input::Ring { length, enum_in } => bytes_of(alloc, ring(alloc, length, enum_in)?.as_str()),
        Input::Spaces(count) => spaces(alloc, count),
    }
}
