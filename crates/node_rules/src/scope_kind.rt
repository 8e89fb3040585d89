//! The flags of a scope, by the node that opens it.

ghost use Rattle.std.specs.Prelude.{◌≡◌, None, codes, cond};
ghost use Rattle.semantic_kinds.specs.Roles.{same_role};
ghost use Rattle.semantic_kinds.specs.declared.kind.AstType.TheVariants.{Directive as directive, Function as function_kind, Program as program_kind};
ghost use Rattle.semantic_kinds.specs.declared.role.Role.TheVariants.{Value as value_role, Root as root_role};
ghost use Rattle.semantic_syntax.specs.declared.scope_flags.TheConstants.ScopeFlags as scope;
ghost use Rattle.semantic_syntax.specs.Sets.{union};
ghost use Rattle.node_rules.specs.Seen.{parent_path, in_role};
ghost use Rattle.semantic_tree.specs.Views.{is_with_text, has_use_strict as uses_strict};
ghost use Rattle.semantic_model.specs.ScopeKind.{strict_if as strict_bits, strict_by_body as body_bits, accessor as accessor_bits, value_of, method_flags as method_bits, flags_of_kind};

use crate::questions::reads;
use semantic_syntax::{ScopeFlags, SourceType};
use semantic_tree::{AstKind, AstType, Role};

/// Whether the node is the directive that makes code strict (ECMAScript 11.2.1, Use Strict Directive).
fn is_use_strict(kind: AstKind<'_>) -> bool
    ensures { result ≡ is_with_text directive (codes "use strict") kind.entry.node.now }
{
    kind.ty() == AstType::Directive && reads(kind, "use strict")
}

/// Whether the node has the directive that makes its code strict (ECMAScript 11.2.1).
pub fn has_use_strict(kind: AstKind<'_>) -> bool
    ensures { result ≡ uses_strict kind.entry.node.now }
{
    for (role, child) in kind.node().children.as_slice() {
        if *role == Role::Directives && is_use_strict(AstKind::new(child)) {
            return true;
        }
    }
    false
}

/// Strict where the test holds.
fn strict_if(is: bool) -> ScopeFlags
    ensures { result.bits ≡ strict_bits is }
{
    if is {
        ScopeFlags::StrictMode
    } else {
        ScopeFlags::empty()
    }
}

/// Strict where the node's body has the directive (ECMAScript 11.2.2, Strict Mode Code).
fn strict_by_body(kind: AstKind<'_>) -> ScopeFlags
    ensures { result.bits ≡ body_bits kind.entry.node.now }
{
    match kind.child(Role::Body) {
        Some(body) => strict_if(has_use_strict(body)),
        None => ScopeFlags::empty(),
    }
}

/// What the function of a getter or setter is.
fn accessor_flags(kind: AstKind<'_>) -> ScopeFlags
    ensures { result.bits ≡ accessor_bits kind.entry.node.now.text }
{
    if reads(kind, "get") {
        ScopeFlags::GetAccessor
    } else if reads(kind, "set") {
        ScopeFlags::SetAccessor
    } else {
        ScopeFlags::empty()
    }
}

/// What a function is as the value of a method or of an object's property.
fn value_flags(parent: AstKind<'_>, function: AstKind<'_>) -> ScopeFlags
    ensures { result.bits ≡ value_of parent.entry.node.now.kind parent.entry.node.now.text
        function.entry.node.now }
{
    match parent.ty() {
        AstType::MethodDefinition => {
            if reads(parent, "constructor") {
                ScopeFlags::Constructor
            } else {
                accessor_flags(parent)
            }
        }
        AstType::ObjectProperty => {
            if reads(function, "expression") {
                accessor_flags(parent)
            } else {
                ScopeFlags::empty()
            }
        }
        _ => ScopeFlags::empty(),
    }
}

/// What a function in its role is as the value of its parent.
fn method_flags(function: AstKind<'_>, role: Role, parent: Option<AstKind<'_>>) -> ScopeFlags
    ensures { result.bits ≡ cond (same_role role value_role)
        (method_bits (parent_path parent.entry) function.entry.node.now) 0 }
{
    match parent {
        Some(parent) if role == Role::Value => value_flags(parent, function),
        _ => ScopeFlags::empty(),
    }
}

/// The flags of a function's scope: what it is as a method, and strict by its directive (ECMAScript 11.2.2).
fn function_flags(
    function: AstKind<'_>,
    role: Role,
    parent: Option<AstKind<'_>>,
    source_type: SourceType,
) -> ScopeFlags
    ensures { result.bits ≡ flags_of_kind function_kind
        (in_role source_type role function.entry parent.entry) }
{
    let method = method_flags(function, role, parent);
    ScopeFlags::Function.union(strict_by_body(function).union(method))
}

/// The flags of an arrow's scope, which is strict by its directive (ECMAScript 11.2.2).
fn arrow_flags(arrow: AstKind<'_>) -> ScopeFlags
    ensures { result.bits ≡ union scope.Function.bits
        (union scope.Arrow.bits (body_bits arrow.entry.node.now)) }
{
    ScopeFlags::Function.union(ScopeFlags::Arrow.union(strict_by_body(arrow)))
}

/// The flags of the root's scope: a module is strict, and a script with the directive (ECMAScript 11.2.2).
pub fn root_flags(root: AstKind<'_>, source_type: SourceType) -> ScopeFlags
    ensures { result.bits ≡ flags_of_kind program_kind
        (in_role source_type root_role root.entry None) }
{
    ScopeFlags::Top.union(strict_if(source_type.is_strict() || has_use_strict(root)))
}

/// The flags of the scope that a node opens, given its role, its parent and the source's type. The strictness
/// of the code around it isn't in them.
pub fn flags_of(
    kind: AstKind<'_>,
    role: Role,
    parent: Option<AstKind<'_>>,
    source_type: SourceType,
) -> ScopeFlags
    ensures { result.bits ≡ flags_of_kind kind.entry.node.now.kind
        (in_role source_type role kind.entry parent.entry) }
{
    match kind.ty() {
        AstType::Program => root_flags(kind, source_type),
        // All parts of a class are strict (ECMAScript 11.2.2).
        AstType::Class => ScopeFlags::StrictMode,
        AstType::Function => function_flags(kind, role, parent, source_type),
        AstType::ArrowFunctionExpression => arrow_flags(kind),
        AstType::WithStatement => ScopeFlags::With,
        AstType::CatchClause => ScopeFlags::CatchClause,
        AstType::StaticBlock => ScopeFlags::ClassStaticBlock,
        AstType::TSNamespaceDeclaration | AstType::TSExternalModuleDeclaration => {
            ScopeFlags::TsModuleBlock.union(strict_by_body(kind))
        }
        AstType::TSGlobalDeclaration => ScopeFlags::TsModuleBlock,
        AstType::TSConditionalType => ScopeFlags::TsConditional,
        _ => ScopeFlags::empty(),
    }
}
