//! The whole script.
ghost use Rattle.std.specs.Prelude.{◌≡◌, [], ◌++◌, ◌+◌, ◌*◌, ◌<◌, ◌≤◌, None, length, string_bytes, IfOk, OnOk, IsTrue};
ghost use Rattle.semantic_kinds.specs.Ascii.{is_ascii};
ghost use Rattle.semantic_kinds.specs.declared.kind.AstType.TheVariants.{Program as program_kind};
ghost use Rattle.semantic_tree.specs.Faults.{first_fault};
ghost use Rattle.generated_tree.specs.Generated as made;

use crate::parts::{function, leaf, with};
use semantic_syntax::{Goal, Lang, SourceType, Span, Text};
use semantic_tree::{AstType, Node, Program, Role};
use std::alloc::{AllocError, Global};

/// How many functions a script may have.
pub const MOST_FUNCTIONS: u32 = 100_000;

/// `f` and the number of the function.
#[tactic(auto, using(crate::proofs::Ascii::ascii_names, crate::proofs::Lines::names))]
fn function_name(alloc: Global, number: u32) -> Result<String, AllocError>
    requires { number < made.most_functions }
    ensures name { IfOk result (λ name. string_bytes name ≡ made.function_name number) }
    ensures ascii { IfOk result (λ name. IsTrue (is_ascii (string_bytes name))) }
    ensures short { IfOk result (λ name. length (string_bytes name) ≤ 6) }
{
    format!(in alloc; "f{number}")
}

/// Adds the line of a function to the source.
fn push_line(source: &mut String, name: &str) -> Result<(), AllocError>
    ensures { OnOk result (string_bytes source.new
        ≡ string_bytes source.old ++ made.function_line name.now) }
{
    source.push_str("function ")?;
    source.push_str(name)?;
    source.push_str("(a = x) { var x; x = a; }\n")?;
    Ok(())
}

/// Where the line of the next function begins.
#[tactic(auto, using(crate::proofs::Lines::lengths))]
fn end_of(source: &str, number: u32) -> u32
    requires number { number ≤ made.most_functions }
    requires source { source.now ≡ made.lines number }
    ensures end { result ≡ length (made.lines number) }
    ensures within { result ≤ 41 * number }
{
    source.len() as u32
}

/// Adds the next function, in a line of the source and as a child of the root.
#[tactic(auto, using(crate::proofs::Lines::next))]
fn add_function(
    alloc: Global,
    number: u32,
    source: &mut String,
    root: Node,
) -> Result<Node, AllocError>
    requires number { number < made.most_functions }
    requires source { string_bytes source.old ≡ made.lines number }
    requires root { root ≡ made.plain_node program_kind 0 0 [] (made.functions number) }
    ensures source { OnOk result (string_bytes source.new ≡ made.lines (number + 1)) }
    ensures root { IfOk result (λ now. now
        ≡ made.plain_node program_kind 0 0 [] (made.functions (number + 1))) }
{
    let name = function_name(alloc, number)?;
    let at = end_of(source.as_str(), number);
    push_line(source, name.as_str())?;
    with(root, Role::Body, function(alloc, at, name.as_str())?)
}

/// The root, of a source of so many bytes.
fn ending_at(root: Node, end: u32) -> Node
    ensures { result ≡ record root { span = record { start = 0; end = end } } }
{
    let mut root = root;
    root.span = Span::new(0, end);
    root
}

/// The script of a source and its root, which have no fault.
fn program_of(alloc: Global, source: Text, root: Node) -> Program
    requires { first_fault (made.script source root) ≡ None }
    ensures { result ≡ made.script source root }
{
    let source_type = SourceType {
        goal: Goal::Script,
        lang: Lang::Js,
    };
    match Program::new(alloc, source, source_type, Vec::new(alloc), root) {
        Ok(program) => program,
        Err(_) => unreachable!(),
    }
}

/// The script of so many functions, as one that is read from its source.
pub fn generated(alloc: Global, functions: u32) -> Result<Program, AllocError>
    requires { functions ≤ made.most_functions }
    ensures { IfOk result (λ program. program ≡ made.generated functions) }
{
    let mut source = String::new(alloc);
    let mut root = leaf(alloc, AstType::Program, 0, 0, "")?;
    for number in 0..functions {
        root = add_function(alloc, number, &mut source, root)?;
    }
    let end = end_of(source.as_str(), functions);
    let text = Text::new(alloc, source.as_str())?;
    Ok(program_of(alloc, text, ending_at(root, end)))
}
