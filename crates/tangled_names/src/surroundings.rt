//! What the nodes around a place say of the names there.
ghost use Rattle.std.specs.Prelude.{◌≡◌, []};
ghost use Rattle.semantic_kinds.specs.declared.role.Role.TheVariants.{Extends as extends_role};
ghost use Rattle.semantic_tree.specs.Views.{child_of};
ghost use Rattle.tangle_model.specs.Surroundings as surroundings;

use node_rules::questions::reads;
use node_rules::rows::is_statement;
use node_rules::scope_kind::has_use_strict;
use semantic_syntax::{NodeId, SourceType};
use semantic_tree::{AstKind, AstType, Mark, Role};
use tangle_model::{Around, Declarer};

/// Nothing is around.
pub fn outermost(source_type: SourceType) -> Around
    ensures { result ≡ surroundings.around_under source_type [] }
{
    Around {
        home: NodeId::new(0),
        is_strict: source_type.is_strict(),
        in_block: false,
        in_catch: false,
        in_with: false,
        declarer: Declarer::Other,
        in_inner_block: false,
        extends_part: NodeId::new(0),
        in_extends: false,
        extends: NodeId::new(0),
        index_signature: NodeId::new(0),
        in_type_parameters: false,
        exports_types: false,
    }
}

/// Whether the node takes the variables that are declared in it (ECMAScript 10.2.11, 15.7.12, 16.1.7).
fn is_home(node: AstKind<'_>) -> bool
    ensures { result ≡ surroundings.is_home node.entry.node.now }
{
    matches!(
        node.ty(),
        AstType::Program
            | AstType::Function
            | AstType::ArrowFunctionExpression
            | AstType::StaticBlock
            | AstType::TSModuleBlock
    )
}

/// Whether the node makes the code in it strict (ECMAScript 11.2.2).
fn makes_strict(node: AstKind<'_>) -> bool
    ensures { result ≡ surroundings.makes_strict node.entry.node.now }
{
    match node.ty() {
        AstType::ClassBody => true,
        AstType::Program | AstType::FunctionBody | AstType::TSModuleBlock => has_use_strict(node),
        _ => false,
    }
}

/// Whether a statement directly in the node stands in a block or a case, or is the body of an `if`; labels are seen
/// through.
fn in_block(node: AstKind<'_>, around: &Around) -> bool
    ensures { result ≡ (surroundings.around_in around.now node.entry.node.now).in_block }
{
    match node.ty() {
        AstType::LabeledStatement => around.in_block,
        AstType::BlockStatement | AstType::SwitchCase | AstType::IfStatement => true,
        _ => false,
    }
}

/// What declares the binding identifiers in the node; patterns are seen through.
fn declarer_in(node: AstKind<'_>, around: &Around) -> Declarer
    ensures { result ≡ (surroundings.around_in around.now node.entry.node.now).declarer }
{
    match node.ty() {
        AstType::VariableDeclaration if reads(node, "var") => Declarer::Var,
        AstType::CatchParameter => Declarer::CatchParameter,
        AstType::Function if is_statement(node) => Declarer::Function,
        AstType::VariableDeclarator
        | AstType::ObjectPattern
        | AstType::ArrayPattern
        | AstType::AssignmentPattern
        | AstType::BindingProperty
        | AstType::BindingRestElement => around.declarer,
        _ => Declarer::Other,
    }
}

/// Whether the node is a block, a loop, a `switch` or a `with`.
fn is_inner_block(node: AstKind<'_>) -> bool
    ensures { result ≡ surroundings.is_inner_block node.entry.node.now }
{
    matches!(
        node.ty(),
        AstType::BlockStatement
            | AstType::ForStatement
            | AstType::ForInStatement
            | AstType::ForOfStatement
            | AstType::SwitchStatement
            | AstType::WithStatement
    )
}

/// The first child in the role `extends`; the root where there is none.
fn extends_child(node: AstKind<'_>) -> NodeId
    ensures { result ≡ surroundings.id_or_root (child_of extends_role node.entry.node.now) }
{
    match node.child(Role::Extends) {
        Some(part) => part.node_id(),
        None => NodeId::new(0),
    }
}

/// The part `extends` of a conditional type; the root of another node.
fn extends_part_of(node: AstKind<'_>) -> NodeId
    ensures { result ≡ surroundings.extends_part_of node.entry.node.now }
{
    match node.ty() {
        AstType::TSConditionalType => extends_child(node),
        _ => NodeId::new(0),
    }
}

/// Whether the node is that part, where there is one.
fn is_part(part: NodeId, node: AstKind<'_>) -> bool
    ensures { result ≡ surroundings.is_extends_part part node.entry.node.now }
{
    node.node_id().index() == part.index() && part.index() != 0
}

/// The outermost node of a sort: the one above, or this one if it is of the sort.
fn outermost_of(above: NodeId, is_one: bool, node: AstKind<'_>) -> NodeId
    ensures { result ≡ surroundings.outermost above is_one node.entry.node.now }
{
    if above.index() != 0 {
        above
    } else if is_one {
        node.node_id()
    } else {
        NodeId::new(0)
    }
}

/// Whether a name in the node is exported as a type.
fn exports_types(node: AstKind<'_>, above: bool) -> bool
    ensures { result
        ≡ surroundings.exports_types_in node.entry.node.now.kind node.entry.node.now above }
{
    match node.ty() {
        AstType::ExportNamedDeclaration => node.has_mark(Mark::TypeOnly),
        AstType::ExportSpecifier => node.has_mark(Mark::TypeOnly) || above,
        _ => false,
    }
}

/// What is around one node further in.
pub fn around_in(node: AstKind<'_>, around: &Around) -> Around
    ensures { result ≡ surroundings.around_in around.now node.entry.node.now }
{
    let is_home = is_home(node);
    let is_conditional = node.ty() == AstType::TSConditionalType;
    let is_part = is_part(around.extends_part, node);
    let is_signature = node.ty() == AstType::TSIndexSignature;
    let is_parameters = node.ty() == AstType::TSTypeParameterDeclaration;
    Around {
        home: if is_home { node.node_id() } else { around.home },
        is_strict: makes_strict(node) || around.is_strict,
        in_block: in_block(node, around),
        in_catch: !is_home && (node.ty() == AstType::CatchClause || around.in_catch),
        in_with: node.ty() == AstType::WithStatement || around.in_with,
        declarer: declarer_in(node, around),
        in_inner_block: !is_home && (is_inner_block(node) || around.in_inner_block),
        extends_part: extends_part_of(node),
        in_extends: !is_conditional && (is_part || around.in_extends),
        extends: outermost_of(around.extends, is_part, node),
        index_signature: outermost_of(around.index_signature, is_signature, node),
        in_type_parameters: is_parameters || around.in_type_parameters,
        exports_types: exports_types(node, around.exports_types),
    }
}
