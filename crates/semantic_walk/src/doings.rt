//! What a walk does at nodes of a kind, told by one look at the kind: most nodes only carry what is below them.

ghost use Rattle.std.specs.Prelude.{◌≡◌, map};
ghost use Rattle.semantic_kinds.specs.Kinds.{all_kinds};
ghost use Rattle.semantic_model.specs.Cursor.{cursor_before, cursor_behind};
ghost use Rattle.semantic_model.specs.Inside.{opens, is_inside, any_inside, is_in_header};
ghost use Rattle.semantic_tree.specs.Children.{forest_of};
ghost use Rattle.walk_notes.specs.NoteLists.{is_noted_behind};
ghost use Rattle.semantic_walk.specs.Doings.{bits_of, acts_on_entering, acts_between, is_passing, turns_cursor, moves_cursor, holds_all, has_header};

use node_rules::cursor;
use node_rules::inside::{is_in_header, is_inside};
use semantic_syntax::ReferenceFlags;
use semantic_tree::{AstKind, AstType, Node, Role};
use std::marker::Model;

/// Something may be made or noted on entering the node.
const ENTERS: u16 = 1;
/// Something may happen round a child.
const BETWEEN: u16 = 2;
/// The cursor may turn round a child, whatever its role.
const TURNS: u16 = 4;
/// Something may be noted on leaving the node.
const BEHIND: u16 = 8;
/// A leaf may be passed over.
const PASSES: u16 = 16;
/// The node opens a scope.
const OPENS: u16 = 32;
/// The scope has a header.
const HEADER: u16 = 64;
/// All children stand inside the scope.
const INSIDE: u16 = 128;
/// The cursor may move on entering the node and on leaving it.
const MOVES: u16 = 256;

/// What a walk does at nodes of a kind. Contracts see the kind.
#[derive(Clone, Copy)]
pub struct Doings {
    kind: AstType,
    bits: u16,
}

impl Model for Doings {
    ghost use Rattle.std.specs.Prelude.{◌≡◌};
    ghost use Rattle.semantic_kinds.specs.declared.kind.AstType.{AstType};
    ghost use Rattle.semantic_walk.specs.Doings.{bits_of};

    ghost Value = { AstType };

    ghost view = { λ d. d.kind };

    ghost invariant = { λ d. d.bits ≡ bits_of d.kind };

    ghost inverse = { λ k. record { kind = k; bits = bits_of k } };
}

/// Whether one of the children stands inside the scope of a parent of the kind.
fn any_inside(parent: AstType, children: &[(Role, Node)]) -> bool
    ensures { result ≡ any_inside parent (forest_of children.now) }
{
    for (role, _) in children {
        if is_inside(parent, *role) {
            return true;
        }
    }
    false
}

/// The bits of the kinds, in their order.
static BITS: [u16; 190] = [
    BETWEEN | OPENS | INSIDE, // Program
    0, // Hashbang
    PASSES, // Directive
    PASSES, // BindingIdentifier
    ENTERS | PASSES | MOVES, // IdentifierReference
    PASSES, // IdentifierName
    PASSES, // LabelIdentifier
    ENTERS, // PrivateIdentifier
    0, // FunctionBody
    0, // SwitchCase
    BETWEEN | OPENS | HEADER | INSIDE, // CatchClause
    ENTERS, // CatchParameter
    BETWEEN | OPENS | INSIDE, // BlockStatement
    PASSES, // EmptyStatement
    PASSES, // DebuggerStatement
    0, // ExpressionStatement
    0, // IfStatement
    0, // DoWhileStatement
    0, // WhileStatement
    BETWEEN | OPENS | INSIDE, // ForStatement
    BETWEEN | TURNS | OPENS | INSIDE, // ForInStatement
    BETWEEN | TURNS | OPENS | INSIDE, // ForOfStatement
    ENTERS, // ContinueStatement
    ENTERS, // BreakStatement
    0, // ReturnStatement
    BETWEEN | OPENS, // WithStatement
    BETWEEN | OPENS, // SwitchStatement
    ENTERS | BEHIND, // LabeledStatement
    0, // ThrowStatement
    0, // TryStatement
    0, // VariableDeclaration
    ENTERS, // VariableDeclarator
    ENTERS | BETWEEN | OPENS | HEADER | INSIDE, // Function
    0, // FormalParameters
    ENTERS | BETWEEN, // FormalParameter
    ENTERS | BETWEEN, // FormalParameterRest
    ENTERS, // BindingRestElement
    0, // ObjectPattern
    0, // BindingProperty
    0, // ArrayPattern
    0, // AssignmentPattern
    ENTERS | BETWEEN | TURNS | BEHIND | OPENS, // Class
    ENTERS, // ClassBody
    BETWEEN | TURNS, // MethodDefinition
    BETWEEN | TURNS, // PropertyDefinition
    0, // AccessorProperty
    BETWEEN | OPENS | INSIDE, // StaticBlock
    0, // Decorator
    0, // ImportDeclaration
    ENTERS, // ImportSpecifier
    ENTERS, // ImportDefaultSpecifier
    ENTERS, // ImportNamespaceSpecifier
    0, // WithClause
    0, // ImportAttribute
    0, // ExportDeclaration
    BETWEEN | TURNS, // ExportNamedDeclaration
    0, // ExportFromDeclaration
    BETWEEN | TURNS, // ExportDefaultDeclaration
    0, // ExportAllDeclaration
    0, // ExportSpecifier
    PASSES, // BooleanLiteral
    PASSES, // NullLiteral
    PASSES, // NumericLiteral
    PASSES, // BigIntLiteral
    PASSES, // RegExpLiteral
    PASSES, // StringLiteral
    0, // TemplateLiteral
    PASSES, // TemplateElement
    0, // TaggedTemplateExpression
    PASSES, // ThisExpression
    PASSES, // Super
    0, // MetaProperty
    0, // ArrayExpression
    0, // Elision
    0, // SpreadElement
    0, // ObjectExpression
    0, // ObjectProperty
    ENTERS, // CallExpression
    0, // NewExpression
    0, // ImportExpression
    BETWEEN | TURNS | MOVES, // ComputedMemberExpression
    MOVES, // StaticMemberExpression
    MOVES, // PrivateFieldExpression
    0, // ChainExpression
    BETWEEN | TURNS, // UnaryExpression
    BETWEEN | TURNS, // UpdateExpression
    0, // BinaryExpression
    0, // PrivateInExpression
    0, // LogicalExpression
    BETWEEN | TURNS, // ConditionalExpression
    BETWEEN | TURNS, // AssignmentExpression
    0, // SequenceExpression
    0, // ParenthesizedExpression
    0, // AwaitExpression
    0, // YieldExpression
    BETWEEN | OPENS | HEADER | INSIDE, // ArrowFunctionExpression
    0, // ObjectAssignmentTarget
    BETWEEN | TURNS, // AssignmentTargetPropertyIdentifier
    0, // AssignmentTargetPropertyProperty
    BETWEEN | TURNS, // ArrayAssignmentTarget
    0, // AssignmentTargetWithDefault
    0, // AssignmentTargetRest
    0, // TSAsExpression
    0, // TSSatisfiesExpression
    0, // TSTypeAssertion
    0, // TSNonNullExpression
    0, // TSInstantiationExpression
    0, // JSXElement
    0, // JSXFragment
    0, // JSXOpeningElement
    0, // JSXClosingElement
    0, // JSXOpeningFragment
    0, // JSXClosingFragment
    0, // JSXEmptyExpression
    0, // JSXAttribute
    0, // JSXSpreadAttribute
    0, // JSXExpressionContainer
    0, // JSXSpreadChild
    0, // JSXText
    0, // JSXIdentifier
    0, // JSXNamespacedName
    0, // JSXMemberExpression
    0, // TSAnyKeyword
    0, // TSBigIntKeyword
    0, // TSBooleanKeyword
    0, // TSIntrinsicKeyword
    0, // TSNeverKeyword
    0, // TSNullKeyword
    0, // TSNumberKeyword
    0, // TSObjectKeyword
    0, // TSStringKeyword
    0, // TSSymbolKeyword
    0, // TSUndefinedKeyword
    0, // TSUnknownKeyword
    0, // TSVoidKeyword
    0, // TSThisType
    0, // JSDocUnknownType
    0, // TSArrayType
    0, // TSParenthesizedType
    BETWEEN | OPENS, // TSConditionalType
    BETWEEN | OPENS | INSIDE, // TSConstructorType
    BETWEEN | OPENS | INSIDE, // TSFunctionType
    BETWEEN | OPENS | INSIDE, // TSCallSignatureDeclaration
    BETWEEN | OPENS | INSIDE, // TSConstructSignatureDeclaration
    0, // TSImportType
    0, // TSImportTypeQualifiedName
    0, // TSIndexedAccessType
    0, // TSInferType
    0, // TSIntersectionType
    0, // TSUnionType
    0, // TSLiteralType
    BETWEEN | OPENS | INSIDE, // TSMappedType
    0, // TSTemplateLiteralType
    0, // TSTupleType
    0, // TSNamedTupleMember
    0, // TSOptionalType
    0, // TSRestType
    0, // TSTypeLiteral
    0, // TSTypeOperator
    0, // TSTypePredicate
    MOVES, // TSTypeQuery
    BETWEEN | TURNS, // TSTypeReference
    0, // JSDocNullableType
    0, // JSDocNonNullableType
    BETWEEN | TURNS, // TSQualifiedName
    0, // TSTypeAnnotation
    0, // TSTypeParameterDeclaration
    0, // TSTypeParameterInstantiation
    ENTERS, // TSTypeParameter
    0, // TSThisParameter
    BETWEEN | TURNS | MOVES, // TSPropertySignature
    BETWEEN | TURNS | OPENS, // TSMethodSignature
    0, // TSIndexSignature
    0, // TSIndexSignatureName
    ENTERS | BETWEEN | OPENS, // TSTypeAliasDeclaration
    ENTERS | BETWEEN | OPENS, // TSInterfaceDeclaration
    0, // TSInterfaceBody
    BETWEEN | TURNS, // TSInterfaceHeritage
    BETWEEN | TURNS, // TSClassImplements
    ENTERS, // TSEnumDeclaration
    BETWEEN | OPENS | INSIDE, // TSEnumBody
    ENTERS, // TSEnumMember
    BETWEEN | OPENS, // TSExternalModuleDeclaration
    ENTERS | BETWEEN | OPENS, // TSNamespaceDeclaration
    BETWEEN | OPENS | INSIDE, // TSGlobalDeclaration
    0, // TSModuleBlock
    ENTERS | BETWEEN | TURNS, // TSImportEqualsDeclaration
    0, // TSExternalModuleReference
    BETWEEN | TURNS, // TSExportAssignment
    0, // TSNamespaceExportDeclaration
];

/// The bits of the kinds, in their order.
#[inline(always)]
fn all_bits() -> &'static [u16; 190]
    ensures { result.now ≡ map bits_of all_kinds }
{
    &BITS
}

/// The bits of a kind.
#[inline(always)]
fn bits_of(kind: AstType) -> u16
    ensures { result ≡ bits_of kind }
{
    all_bits()[kind.index()]
}

impl Doings {
    /// What a walk does at nodes of the kind.
    #[inline(always)]
    pub fn of(kind: AstType) -> Doings
        ensures { result ≡ kind }
    {
        Doings {
            kind,
            bits: bits_of(kind),
        }
    }

    /// The kind.
    #[inline(always)]
    pub fn kind(self) -> AstType
        ensures { result ≡ self }
    {
        self.kind
    }

    /// Whether something may be made or noted on entering the node.
    #[inline(always)]
    pub fn acts_on_entering(self) -> bool
        ensures { result ≡ acts_on_entering self }
    {
        self.bits & ENTERS != 0
    }

    /// Whether something may happen round a child.
    #[inline(always)]
    pub fn acts_between(self) -> bool
        ensures { result ≡ acts_between self }
    {
        self.bits & BETWEEN != 0
    }

    /// Whether the cursor may turn round a child, whatever its role.
    #[inline(always)]
    fn turns_cursor(self) -> bool
        ensures { result ≡ turns_cursor self }
    {
        self.bits & TURNS != 0
    }

    /// Whether something may be noted on leaving the node.
    #[inline(always)]
    pub fn is_noted_behind(self) -> bool
        ensures { result ≡ is_noted_behind self }
    {
        self.bits & BEHIND != 0
    }

    /// Whether a leaf may be passed over.
    #[inline(always)]
    pub fn is_passing(self) -> bool
        ensures { result ≡ is_passing self }
    {
        self.bits & PASSES != 0
    }

    /// Whether the node opens a scope.
    #[inline(always)]
    pub fn opens(self) -> bool
        ensures { result ≡ opens self }
    {
        self.bits & OPENS != 0
    }

    /// Whether the scope has a header.
    #[inline(always)]
    fn has_header(self) -> bool
        ensures { result ≡ has_header self }
    {
        self.bits & HEADER != 0
    }

    /// Whether all children stand inside the scope.
    #[inline(always)]
    fn holds_all(self) -> bool
        ensures { result ≡ holds_all self }
    {
        self.bits & INSIDE != 0
    }

    /// Whether the cursor may move on entering the node and on leaving it.
    #[inline(always)]
    pub fn moves_cursor(self) -> bool
        ensures { result ≡ moves_cursor self }
    {
        self.bits & MOVES != 0
    }

    /// Whether a child in the role stands inside the scope of the node.
    #[inline(always)]
    pub fn is_inside(self, role: Role) -> bool
        ensures { result ≡ is_inside self role }
    {
        if self.holds_all() {
            return true;
        }
        self.opens() && is_inside(self.kind, role)
    }

    /// Whether one of the children that follow stands inside the scope of the node.
    #[inline(always)]
    pub fn any_inside(self, rest: &[(Role, Node)]) -> bool
        ensures { result ≡ any_inside self (forest_of rest.now) }
    {
        if self.holds_all() {
            !rest.is_empty()
        } else {
            any_inside(self.kind, rest)
        }
    }

    /// Whether a child in the role is a part of the node's header.
    #[inline(always)]
    pub fn is_in_header(self, role: Role) -> bool
        ensures { result ≡ is_in_header self role }
    {
        self.has_header() && is_in_header(self.kind, role)
    }

    /// The cursor on coming to a child of a parent of the kind. `is_ambient` says whether code inside the parent is
    /// ambient.
    #[inline(always)]
    pub fn before_child(
        self,
        parent: AstKind<'_>,
        is_ambient: bool,
        role: Role,
        child: AstKind<'_>,
        cursor: ReferenceFlags,
    ) -> ReferenceFlags
        ensures { self ≡ parent.entry.node.now.kind → result.bits
            ≡ cursor_before parent.entry.node.now is_ambient role child.entry.node.now cursor.bits }
    {
        if self.turns_cursor() || role == Role::Binding {
            cursor::before_child(parent, is_ambient, role, child, cursor)
        } else {
            cursor
        }
    }

    /// The cursor behind a child, from those before and after it.
    #[inline(always)]
    pub fn behind_child(
        self,
        role: Role,
        before: ReferenceFlags,
        after: ReferenceFlags,
    ) -> ReferenceFlags
        ensures { result.bits ≡ cursor_behind self role before.bits after.bits }
    {
        if self.turns_cursor() {
            cursor::behind_child(self.kind, role, before, after)
        } else {
            after
        }
    }
}
