//! The program in which nodes have other names.

ghost use Rattle.std.specs.Prelude.{◌≡◌, ◌<◌, ◌^◌, [], false, Some, None, bytes_eq, cond, IfOk, OnOk};
ghost use Rattle.std.specs.Str.{chars};
ghost use Rattle.semantic_kinds.specs.declared.mark.Mark.TheVariants.{Shorthand as shorthand};
ghost use Rattle.semantic_tree.specs.Faults.{first_fault};
ghost use Rattle.semantic_tree.specs.Forest.{join};
ghost use Rattle.semantic_tree.specs.Tree.{numbered_tree};
ghost use Rattle.program_laws.specs.ReadMarks.{without_mark, without_where};
ghost use Rattle.renamer.specs.Told.{told_by};
ghost use Rattle.rename_model.specs.Renamed.{bears_name, program_renamed};
ghost use Rattle.rename_model.specs.WithName.{is_named_value, sheds, AreIdentifiers};
ghost use Rattle.mangle_model.specs.Assignment.{name_or};
ghost use Rattle.mangle_model.specs.WithNames.{is_given, with_names, with_names_in, AreSomeNames};
ghost use Rattle.renamer.specs.Renaming.{IsKnown, AreKnown, alone, with_kept};

use crate::analysed::Analysed;
use crate::bearing::bears_name;
use crate::given_names::GivenNames;
use semantic_syntax::{NodeId, SourceType, SymbolId, Text};
use semantic_tree::{AstKind, AstType, Comment, Mark, Marks, Node, Program, Role};
use std::alloc::{AllocError, Global};

/// Whether the node is given a name.
fn is_given<N: GivenNames>(names: &N, node: NodeId) -> bool
    ensures { result ≡ is_given (N.given names.now) node }
{
    match names.name_of(node) {
        Some(_) => true,
        None => false,
    }
}

/// Whether a value is given a name, or its left is.
fn is_named_value<N: GivenNames>(names: &N, value: AstKind<'_>) -> bool
    ensures { result ≡ is_named_value (is_given (N.given names.now)) value.entry.node.now }
{
    if is_given(names, value.node_id()) {
        return true;
    }
    match value.child(Role::Left) {
        Some(left) => is_given(names, left.node_id()),
        None => false,
    }
}

/// Whether the node is a property that can't be written in short any more.
fn sheds<N: GivenNames>(names: &N, node: AstKind<'_>) -> bool
    ensures { result ≡ sheds (is_given (N.given names.now)) node.entry.node.now }
{
    if !matches!(
        node.ty(),
        AstType::ObjectProperty | AstType::BindingProperty
    ) {
        return false;
    }
    for value in node.children(Role::Value) {
        if is_named_value(names, value) {
            return true;
        }
    }
    false
}

/// Some of the marks, and one more if it is kept.
fn with_kept(marks: Marks, kept: Marks, mark: Mark) -> Marks
    ensures { result ≡ with_kept marks kept mark }
{
    if mark != Mark::Shorthand && marks.has(mark) {
        kept.with(mark)
    } else {
        kept
    }
}

/// The marks but `shorthand`.
fn without_shorthand(marks: Marks) -> Marks
    requires { marks.bits < 2 ^ 30 }
    ensures { result ≡ without_mark marks shorthand }
{
    let mut kept = Marks::empty();
    for mark in Mark::all() {
        let next = with_kept(marks, kept, *mark);
        kept = next;
    }
    kept
}

/// The marks that the node has then.
fn marks_of<N: GivenNames>(names: &N, node: AstKind<'_>) -> Marks
    requires { IsKnown node.node.now.kind node.node.now.marks }
    ensures { result ≡ without_where (sheds (is_given (N.given names.now))) shorthand
        node.entry.node.now }
{
    if sheds(names, node) {
        without_shorthand(node.node().marks)
    } else {
        node.node().marks
    }
}

/// The text that the node has then.
fn text_of<'a, N: GivenNames>(names: &'a N, node: &'a Node) -> &'a str
    ensures { chars result.now ≡ name_or (N.given names.now node.now.node_id) node.now.text }
{
    match names.name_of(node.node_id) {
        Some(name) => name,
        None => node.text.as_str(),
    }
}

/// The node, without its children.
fn renamed_alone<N: GivenNames>(alloc: Global, names: &N, node: &Node) -> Result<Node, AllocError>
    requires { IsKnown node.now.kind node.now.marks }
    ensures { IfOk result (λ made. made ≡ alone (N.given names.now) node.now) }
{
    let text = text_of(names, node);
    let marks = marks_of(names, AstKind::new(node));
    let mut made = Node::new(alloc, node.kind, node.span, text, marks)?;
    made.node_id = node.node_id;
    Ok(made)
}

/// Adds the children of a node to another one, with their new names. For want of memory some may be added.
#[tactic(auto, using(semantic_tree::specs::Falls::below))]
fn push_renamed<N: GivenNames>(
    alloc: Global,
    names: &N,
    from: &Node,
    into: &mut Node,
) -> Result<(), AllocError>
    requires { AreKnown from.now.children }
    ensures { OnOk result (into.new
        ≡ record into.old {
          children = join into.old.children
              (with_names (N.given names.now) from.now.children);
        }) }
{
    for (role, child) in from.children.as_slice() {
        let mut copy = renamed_alone(alloc, names, child)?;
        push_renamed(alloc, names, child, &mut copy)?;
        match into.push(*role, copy) {
            Ok(()) => {}
            Err(_) => return Err(AllocError),
        }
    }
    Ok(())
}

/// The root of the program with the new names.
fn renamed_root<N: GivenNames>(alloc: Global, names: &N, root: &Node) -> Result<Node, AllocError>
    requires { AreKnown root.now.children }
    ensures { IfOk result (λ made. made
        ≡ record root.now {
          children = with_names (N.given names.now) root.now.children;
          node_id = 0;
        }) }
{
    let mut made = Node::new(alloc, root.kind, root.span, root.text.as_str(), root.marks)?;
    push_renamed(alloc, names, root, &mut made)?;
    Ok(made)
}

/// The program of a tree that has no fault once it is numbered.
fn program_of(
    alloc: Global,
    source: Text,
    source_type: SourceType,
    comments: Vec<Comment>,
    root: Node,
) -> Program
    requires { first_fault (numbered_tree
        (record {
          source = source;
          source_type = source_type;
          comments = comments.items;
          root = root;
        })) ≡ None }
    ensures { result ≡ numbered_tree
        (record {
          source = source;
          source_type = source_type;
          comments = comments.items;
          root = root;
        }) }
{
    match Program::new(alloc, source, source_type, comments, root) {
        Ok(program) => program,
        Err(_) => unreachable!(),
    }
}

/// The program in which nodes have their new names, which aren't empty. All nodes that are given one are identifiers, so
/// the program has no fault.
pub fn with_names_in<N: GivenNames>(
    alloc: Global,
    program: &Program,
    names: &N,
) -> Result<Program, AllocError>
    requires some { AreSomeNames (N.given names.now) }
    requires identifiers { AreIdentifiers (is_given (N.given names.now)) program.now.root.children }
    ensures { IfOk result (λ made. made ≡ with_names_in (N.given names.now) program.now) }
{
    let root = renamed_root(alloc, names, program.root().node())?;
    let source = Text::new(alloc, program.source_text())?;
    let comments = Vec::from_slice(alloc, program.comments())?;
    Ok(program_of(alloc, source, program.source_type(), comments, root))
}

/// The name of a symbol, for the nodes that bear it.
#[derive(Drop)]
struct OneName<'a> {
    analysed: &'a Analysed<'a>,
    symbol: SymbolId,
    new: &'a str,
}

impl<'a> GivenNames for OneName<'a> {
    ghost given = { λ one id.
        cond (bears_name (told_by one.analysed.now) one.symbol id) (Some (chars one.new.now)) None };

    fn name_of(&self, node: NodeId) -> Option<&str> {
        if bears_name(self.analysed, self.symbol, node) {
            Some(self.new)
        } else {
            None
        }
    }
}

/// The program in which the symbol has the name, which isn't empty. All nodes that bear the symbol's name are
/// identifiers, so the program has no fault.
pub fn renamed(
    alloc: Global,
    program: &Program,
    analysed: &Analysed<'_>,
    symbol: SymbolId,
    new: &str,
) -> Result<Program, AllocError>
    requires name { bytes_eq (chars new.now) [] ≡ false }
    requires identifiers { AreIdentifiers
        (bears_name (told_by analysed.now) symbol) program.now.root.children }
    ensures { IfOk result (λ made. made
        ≡ program_renamed program.now (told_by analysed.now) symbol (chars new.now)) }
{
    let one = OneName {
        analysed,
        symbol,
        new,
    };
    let made = with_names_in(alloc, program, &one)?;
    Ok(made)
}
