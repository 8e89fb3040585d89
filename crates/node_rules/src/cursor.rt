//! The cursor: the flags that the next identifier reference gets. Each rule acts on coming to a child, on entering a
//! node, behind a child, or on leaving a node. TypeScript's compiler asks the like of a name by `isWriteAccess`,
//! `isPartOfTypeNode` and `isPartOfTypeQuery`.

ghost use Rattle.std.specs.Prelude.{◌≡◌, ◌&&◌, [], ◌∷◌, cond, codes};
ghost use Rattle.semantic_kinds.specs.Classes.{holds_kind};
ghost use Rattle.semantic_kinds.specs.declared.kind.AstType.TheVariants.{IdentifierName as identifier_name, PrivateIdentifier as private_identifier};
ghost use Rattle.semantic_tree.specs.Views.{has_text};
ghost use Rattle.semantic_tree.specs.Unwrapped.{inner_expression};
ghost use Rattle.semantic_model.specs.Cursor.{is_member_or_chain as is_member_or_chain_node, way_or_read as way_bits, is_write_place as is_write_place_role, read_or_type as read_or_type_bits, way_exported as exported_bits, equated as equated_bits, qualified as qualified_bits, typed_key as typed_key_bits, at_child as bits_at_child, cursor_before, cursor_behind, on_entering as bits_on_entering, on_leaving as bits_on_leaving};

use crate::questions::reads;
use semantic_kinds::class::{is_member, is_simple_target};
use semantic_syntax::ReferenceFlags;
use semantic_tree::{AstKind, AstType, Mark, Role};

/// The way of a reference under the cursor: it reads where nothing else is said.
pub fn way_of(cursor: ReferenceFlags) -> ReferenceFlags
    ensures { result.bits ≡ way_bits cursor.bits }
{
    if cursor.is_empty() {
        ReferenceFlags::Read
    } else {
        cursor
    }
}

/// A member, or an optional chain that ends in one.
fn is_member_or_chain(kind: AstKind<'_>) -> bool
    ensures { result ≡ is_member_or_chain_node kind.entry.node.now }
{
    if kind.ty() == AstType::ChainExpression {
        match kind.child(Role::Expression) {
            Some(inner) => is_member(inner.ty()),
            None => false,
        }
    } else {
        is_member(kind.ty())
    }
}

/// Whether the child in the role is written to (ECMAScript 8.6.4, AssignmentTargetType; TypeScript's
/// `isWriteAccess`).
fn is_write_place(parent: AstType, role: Role) -> bool
    ensures { result ≡ is_write_place_role parent role }
{
    match parent {
        AstType::AssignmentExpression | AstType::ForInStatement | AstType::ForOfStatement => {
            role == Role::Left
        }
        AstType::UpdateExpression => role == Role::Argument,
        AstType::ArrayAssignmentTarget => role == Role::Elements || role == Role::Binding,
        _ => role == Role::Binding,
    }
}

/// A name that may mean a value or a type.
fn read_or_type() -> ReferenceFlags
    ensures { result.bits ≡ read_or_type_bits }
{
    ReferenceFlags::Read.union(ReferenceFlags::TypeFlag)
}

/// What an exported name means: a type alone where the specifier or the declaration is marked so, by TypeScript's
/// `export type`.
fn exported(parent: AstKind<'_>, specifier: AstKind<'_>) -> ReferenceFlags
    ensures { result.bits ≡ exported_bits parent.entry.node.now specifier.entry.node.now }
{
    if specifier.has_mark(Mark::TypeOnly) || parent.has_mark(Mark::TypeOnly) {
        ReferenceFlags::TypeFlag
    } else {
        read_or_type()
    }
}

/// What TypeScript's `import a = b` names: a plain `b` may be a namespace.
fn equated(parent: AstKind<'_>, reference: AstKind<'_>) -> ReferenceFlags
    ensures { result.bits ≡ equated_bits parent.entry.node.now reference.entry.node.now }
{
    let flags = if parent.has_mark(Mark::TypeOnly) {
        ReferenceFlags::TypeFlag
    } else {
        read_or_type()
    };
    if reference.ty() == AstType::IdentifierReference {
        flags.union(ReferenceFlags::Namespace)
    } else {
        flags
    }
}

/// What stands left in a qualified name is a namespace (TypeScript's `SymbolFlags.Namespace`).
fn qualified(cursor: ReferenceFlags) -> ReferenceFlags
    ensures { result.bits ≡ qualified_bits cursor.bits }
{
    if cursor.is_empty() {
        read_or_type().union(ReferenceFlags::Namespace)
    } else {
        cursor.union(ReferenceFlags::Namespace)
    }
}

/// A computed key that is never run is only the type of a value.
fn typed_key(parent: AstKind<'_>, is_ambient: bool, cursor: ReferenceFlags) -> ReferenceFlags
    ensures { result.bits ≡ typed_key_bits parent.entry.node.now is_ambient cursor.bits }
{
    if parent.has_mark(Mark::Computed) && (parent.has_mark(Mark::Abstract) || is_ambient) {
        ReferenceFlags::ValueAsType
    } else {
        cursor
    }
}

/// The cursor where `is` says, else as it was.
fn when(is: bool, flags: ReferenceFlags, cursor: ReferenceFlags) -> ReferenceFlags
    ensures { result.bits ≡ cond is flags.bits cursor.bits }
{
    if is { flags } else { cursor }
}

/// Whether the operand of the unary operator is deleted from an object.
fn is_deleted_member(parent: AstKind<'_>, argument: AstKind<'_>) -> bool
    ensures { result ≡ (has_text (codes "delete") parent.entry.node.now
        && is_member_or_chain_node (inner_expression argument.entry.node.now)) }
{
    reads(parent, "delete") && is_member_or_chain(argument.get_inner_expression())
}

/// Whether a key is a name, and no expression.
fn is_key_name(key: AstType) -> bool
    ensures { result ≡ holds_kind (identifier_name ∷ private_identifier ∷ []) key }
{
    key == AstType::IdentifierName || key == AstType::PrivateIdentifier
}

/// The cursor at a child, by its parent's kind. `is_ambient` says whether code inside the parent is.
fn at_child(
    parent: AstKind<'_>,
    is_ambient: bool,
    role: Role,
    child: AstKind<'_>,
    cursor: ReferenceFlags,
) -> ReferenceFlags
    ensures { result.bits ≡ bits_at_child parent.entry.node.now.kind parent.entry.node.now
        is_ambient role child.entry.node.now cursor.bits }
{
    match (parent.ty(), role) {
        // A compound assignment reads what it writes (ECMAScript 13.15, Assignment Operators).
        (AstType::AssignmentExpression, Role::Left) => {
            when(!reads(parent, "="), ReferenceFlags::Value, cursor)
        }
        // So do `++` and `--` (ECMAScript 13.4, Update Expressions).
        (AstType::UpdateExpression, Role::Argument) => ReferenceFlags::Value,
        (AstType::UnaryExpression, Role::Argument) => when(
            is_deleted_member(parent, child),
            ReferenceFlags::Write,
            cursor,
        ),
        (AstType::ComputedMemberExpression, Role::Expression)
        | (AstType::ConditionalExpression, Role::Test) => {
            cursor.difference(ReferenceFlags::MemberWriteTarget)
        }
        (AstType::AssignmentTargetPropertyIdentifier, Role::Binding) => ReferenceFlags::Write,
        (AstType::ExportDefaultDeclaration, _) | (AstType::TSExportAssignment, _) => when(
            child.ty() == AstType::IdentifierReference,
            read_or_type(),
            cursor,
        ),
        (AstType::ExportNamedDeclaration, Role::Specifiers) => exported(parent, child),
        (AstType::TSPropertySignature, Role::Key) => when(
            is_key_name(child.ty()),
            cursor,
            ReferenceFlags::ValueAsType,
        ),
        (AstType::TSMethodSignature, Role::Key) => when(
            parent.has_mark(Mark::Computed),
            ReferenceFlags::ValueAsType,
            cursor,
        ),
        (AstType::MethodDefinition, Role::Key) | (AstType::PropertyDefinition, Role::Key) => {
            typed_key(parent, is_ambient, cursor)
        }
        (AstType::Class, Role::Heritage) => when(is_ambient, ReferenceFlags::ValueAsType, cursor),
        (AstType::TSImportEqualsDeclaration, Role::Reference) => equated(parent, child),
        (AstType::TSQualifiedName, Role::Left) => qualified(cursor),
        // Names of types (TypeScript's `isPartOfTypeNode`).
        (AstType::TSInterfaceHeritage, Role::Name)
        | (AstType::TSClassImplements, Role::Name)
        | (AstType::TSTypeReference, Role::Name) => ReferenceFlags::TypeFlag,
        (_, _) => cursor,
    }
}

/// The cursor on coming to a child. `is_ambient` says whether code inside the parent is ambient.
pub fn before_child(
    parent: AstKind<'_>,
    is_ambient: bool,
    role: Role,
    child: AstKind<'_>,
    cursor: ReferenceFlags,
) -> ReferenceFlags
    ensures { result.bits ≡ cursor_before parent.entry.node.now is_ambient role child.entry.node.now
        cursor.bits }
{
    let there = at_child(parent, is_ambient, role, child, cursor);
    let is_written = is_write_place(parent.ty(), role) && is_simple_target(child.ty());
    if is_written && !there.is_write() {
        ReferenceFlags::Write
    } else {
        there
    }
}

/// The cursor behind a child, from those before and after it.
pub fn behind_child(
    parent: AstType,
    role: Role,
    before: ReferenceFlags,
    after: ReferenceFlags,
) -> ReferenceFlags
    ensures { result.bits ≡ cursor_behind parent role before.bits after.bits }
{
    match (parent, role) {
        (AstType::ConditionalExpression, Role::Test) => before,
        (AstType::TSMethodSignature, Role::Key)
        | (AstType::MethodDefinition, Role::Key)
        | (AstType::PropertyDefinition, Role::Key)
        | (AstType::Class, Role::Heritage)
        | (AstType::TSImportEqualsDeclaration, Role::Reference) => ReferenceFlags::empty(),
        (_, _) => after,
    }
}

/// The cursor on entering a node. The name in `typeof a`, as a type, means the type of a value (TypeScript's
/// `isPartOfTypeQuery`), and an object whose member is written to is read.
pub fn on_entering(kind: AstType, cursor: ReferenceFlags) -> ReferenceFlags
    ensures { result.bits ≡ bits_on_entering kind cursor.bits }
{
    match kind {
        AstType::TSTypeQuery => ReferenceFlags::ValueAsType,
        AstType::ComputedMemberExpression
        | AstType::StaticMemberExpression
        | AstType::PrivateFieldExpression
            if cursor.is_write() => {
            ReferenceFlags::Read.union(ReferenceFlags::MemberWriteTarget)
        }
        _ => cursor,
    }
}

/// The cursor on leaving a node: a name, a member and a type query use it up.
pub fn on_leaving(kind: AstType, cursor: ReferenceFlags) -> ReferenceFlags
    ensures { result.bits ≡ bits_on_leaving kind cursor.bits }
{
    match kind {
        AstType::IdentifierReference
        | AstType::TSTypeQuery
        | AstType::TSPropertySignature
        | AstType::ComputedMemberExpression
        | AstType::StaticMemberExpression
        | AstType::PrivateFieldExpression => ReferenceFlags::empty(),
        _ => cursor,
    }
}
