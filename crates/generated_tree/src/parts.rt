//! The parts of a function.
ghost use Rattle.std.specs.Prelude.{◌≡◌, ◌+◌, ◌<◌, ◌^◌, IsTrue, IfOk, length};
ghost use Rattle.std.specs.Str.{chars};
ghost use Rattle.semantic_kinds.specs.Ascii.{is_ascii};
ghost use Rattle.semantic_tree.specs.Children.{single};
ghost use Rattle.semantic_tree.specs.Forest.{join};
ghost use Rattle.generated_tree.specs.Generated as made;

use semantic_syntax::Span;
use semantic_tree::{AstType, Marks, Node, Role};
use std::alloc::{AllocError, Global};

/// A node without children.
#[tactic(auto, using(semantic_kinds::proofs::Ascii::ascii_texts))]
pub fn leaf(
    alloc: Global,
    kind: AstType,
    start: u32,
    end: u32,
    text: &str,
) -> Result<Node, AllocError>
    requires { IsTrue (is_ascii text.now) }
    ensures { IfOk result (λ node. node ≡ made.leaf kind start end text.now) }
{
    Node::new(alloc, kind, Span::new(start, end), text, Marks::empty())
}

/// The node with one more child.
pub fn with(node: Node, role: Role, child: Node) -> Result<Node, AllocError>
    ensures { IfOk result (λ now. now
        ≡ record node { children = join node.children (single role child) }) }
{
    let mut node = node;
    match node.push(role, child) {
        Ok(()) => Ok(node),
        Err(_) => Err(AllocError),
    }
}

/// The parameter `a = x`.
fn parameter(alloc: Global, at: u32) -> Result<Node, AllocError>
    requires { at + 5 < 2 ^ 32 }
    ensures { IfOk result (λ node. node ≡ made.parameter at) }
{
    let pattern = leaf(alloc, AstType::BindingIdentifier, at, at + 1, "a")?;
    let initializer = leaf(alloc, AstType::IdentifierReference, at + 4, at + 5, "x")?;
    let parameter = leaf(alloc, AstType::FormalParameter, at, at + 5, "")?;
    let parameter = with(parameter, Role::Pattern, pattern)?;
    with(parameter, Role::Initializer, initializer)
}

/// The parameters `(a = x)`.
fn parameters(alloc: Global, at: u32) -> Result<Node, AllocError>
    requires { at + 7 < 2 ^ 32 }
    ensures { IfOk result (λ node. node ≡ made.parameters at) }
{
    let parameters = leaf(alloc, AstType::FormalParameters, at, at + 7, "formal")?;
    with(parameters, Role::Items, parameter(alloc, at + 1)?)
}

/// The declaration `var x;`.
fn variable(alloc: Global, at: u32) -> Result<Node, AllocError>
    requires { at + 6 < 2 ^ 32 }
    ensures { IfOk result (λ node. node ≡ made.variable at) }
{
    let id = leaf(alloc, AstType::BindingIdentifier, at + 4, at + 5, "x")?;
    let declarator = leaf(alloc, AstType::VariableDeclarator, at + 4, at + 5, "")?;
    let declaration = leaf(alloc, AstType::VariableDeclaration, at, at + 6, "var")?;
    with(
        declaration,
        Role::Declarators,
        with(declarator, Role::Id, id)?,
    )
}

/// The expression `x = a`.
fn expression(alloc: Global, at: u32) -> Result<Node, AllocError>
    requires { at + 5 < 2 ^ 32 }
    ensures { IfOk result (λ node. node ≡ made.expression at) }
{
    let left = leaf(alloc, AstType::IdentifierReference, at, at + 1, "x")?;
    let right = leaf(alloc, AstType::IdentifierReference, at + 4, at + 5, "a")?;
    let expression = leaf(alloc, AstType::AssignmentExpression, at, at + 5, "=")?;
    let expression = with(expression, Role::Left, left)?;
    with(expression, Role::Right, right)
}

/// The statement `x = a;`.
fn assignment(alloc: Global, at: u32) -> Result<Node, AllocError>
    requires { at + 6 < 2 ^ 32 }
    ensures { IfOk result (λ node. node ≡ made.assignment at) }
{
    let statement = leaf(alloc, AstType::ExpressionStatement, at, at + 6, "")?;
    with(statement, Role::Expression, expression(alloc, at)?)
}

/// The body `{ var x; x = a; }`.
fn body(alloc: Global, at: u32) -> Result<Node, AllocError>
    requires { at + 17 < 2 ^ 32 }
    ensures { IfOk result (λ node. node ≡ made.body at) }
{
    let body = leaf(alloc, AstType::FunctionBody, at, at + 17, "")?;
    let body = with(body, Role::Body, variable(alloc, at + 2)?)?;
    with(body, Role::Body, assignment(alloc, at + 9)?)
}

/// A function of the name, which begins at `at`.
pub fn function(alloc: Global, at: u32, name: &str) -> Result<Node, AllocError>
    requires ascii { IsTrue (is_ascii name.now) }
    requires room { at + length name.now + 34 < 2 ^ 32 }
    ensures { IfOk result (λ node. node ≡ made.function at name.now) }
{
    let start = at + 9;
    let end = start + name.len() as u32;
    let id = leaf(alloc, AstType::BindingIdentifier, start, end, name)?;
    let function = leaf(alloc, AstType::Function, at, end + 25, "declaration")?;
    let function = with(function, Role::Id, id)?;
    let function = with(function, Role::Params, parameters(alloc, end)?)?;
    with(function, Role::Body, body(alloc, end + 8)?)
}
