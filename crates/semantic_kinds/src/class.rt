//! Which nodes a child may be.

ghost use Rattle.std.specs.Prelude.{◌≡◌};
ghost use Rattle.std.specs.Str.{chars};
ghost use Rattle.std.specs.Prelude.{true};
ghost use Rattle.std.specs.Str.{bytes_eq};
ghost use Rattle.semantic_kinds.specs.Ascii.{is_ascii};
ghost use Rattle.semantic_kinds.specs.Classes.{expression_kinds, type_kinds, declaration_kinds, statement_kinds, holds_kind, is_of, is_kind_of_statement, is_declaration, is_expression, is_member, is_literal, is_module_name, is_key, is_type_name, is_pattern, is_simple_target, is_target, is_target_or_default, is_signature, is_jsx_child, is_jsx_name, is_for_init, is_loop_left, is_class_element, is_import_clause, is_default_export, is_export_local, is_array_item, is_object_item, is_argument, is_callee, is_chain_element, is_arrow_body, is_target_property, is_jsx_attribute_item, is_jsx_attribute_name, is_jsx_attribute_value, is_jsx_content, is_jsx_object, is_import_qualifier, is_type_literal_value, is_tuple_item, is_rest_item, is_predicate_name, is_query_name, is_enum_member_name, is_namespace_body, is_import_equals_target};

use crate::kind::AstType;

/// What a child may be.
#[derive(Clone, Copy, PartialEq, Eq, Debug)]
pub enum Class {
    /// A statement.
    Statement,
    /// A declaration.
    Declaration,
    /// An expression.
    Expression,
    /// A type.
    Type,
    /// A member expression.
    Member,
    /// A literal.
    Literal,
    /// A name of an import or export.
    ModuleName,
    /// A key of a member.
    Key,
    /// A name of a type.
    TypeName,
    /// A binding pattern.
    Pattern,
    /// A target that takes one value.
    SimpleTarget,
    /// A target of an assignment.
    Target,
    /// A target, maybe with a default.
    TargetOrDefault,
    /// A member of a type literal or interface.
    Signature,
    /// A child of a JSX element.
    JsxChild,
    /// A name of a JSX element.
    JsxName,
    /// How a `for` begins.
    ForInit,
    /// The left of a `for in` or `for of`.
    LoopLeft,
    /// An element of a class.
    ClassElement,
    /// A specifier of an import.
    ImportClause,
    /// What `export default` takes.
    DefaultExport,
    /// The local name of an export.
    ExportLocal,
    /// An item of an array.
    ArrayItem,
    /// An item of an object.
    ObjectItem,
    /// An argument of a call.
    Argument,
    /// An expression or `super`.
    Callee,
    /// What an optional chain holds.
    ChainElement,
    /// The body of an arrow.
    ArrowBody,
    /// A property of an object target.
    TargetProperty,
    /// An attribute or a spread.
    JsxAttributeItem,
    /// The name of an attribute.
    JsxAttributeName,
    /// The value of an attribute.
    JsxAttributeValue,
    /// What JSX braces hold.
    JsxContent,
    /// The object of a JSX member.
    JsxObject,
    /// A qualifier of an import type.
    ImportQualifier,
    /// What a literal type holds.
    TypeLiteralValue,
    /// An element of a tuple type.
    TupleItem,
    /// What a rest type holds.
    RestItem,
    /// What a type predicate speaks of.
    PredicateName,
    /// What a type query asks of.
    QueryName,
    /// The name of an enum member.
    EnumMemberName,
    /// The body of a namespace.
    NamespaceBody,
    /// What `import =` takes.
    ImportEqualsTarget,
    /// A node of this kind.
    Only(AstType),
}

const EXPRESSION_KINDS: [AstType; 39] = [
    AstType::BooleanLiteral,
    AstType::NullLiteral,
    AstType::NumericLiteral,
    AstType::BigIntLiteral,
    AstType::RegExpLiteral,
    AstType::StringLiteral,
    AstType::TemplateLiteral,
    AstType::TaggedTemplateExpression,
    AstType::ThisExpression,
    AstType::MetaProperty,
    AstType::ArrayExpression,
    AstType::ObjectExpression,
    AstType::CallExpression,
    AstType::NewExpression,
    AstType::ImportExpression,
    AstType::ComputedMemberExpression,
    AstType::StaticMemberExpression,
    AstType::PrivateFieldExpression,
    AstType::ChainExpression,
    AstType::UnaryExpression,
    AstType::UpdateExpression,
    AstType::BinaryExpression,
    AstType::PrivateInExpression,
    AstType::LogicalExpression,
    AstType::ConditionalExpression,
    AstType::AssignmentExpression,
    AstType::SequenceExpression,
    AstType::ParenthesizedExpression,
    AstType::AwaitExpression,
    AstType::YieldExpression,
    AstType::ArrowFunctionExpression,
    AstType::TSAsExpression,
    AstType::TSSatisfiesExpression,
    AstType::TSTypeAssertion,
    AstType::TSNonNullExpression,
    AstType::TSInstantiationExpression,
    AstType::JSXElement,
    AstType::JSXFragment,
    AstType::IdentifierReference,
];

/// Whether each node of the kind is an expression.
pub fn is_expression_kind(kind: AstType) -> bool
    ensures { result ≡ holds_kind expression_kinds kind }
{
    EXPRESSION_KINDS.contains(&kind)
}

const TYPE_KINDS: [AstType; 36] = [
    AstType::TSAnyKeyword,
    AstType::TSBigIntKeyword,
    AstType::TSBooleanKeyword,
    AstType::TSIntrinsicKeyword,
    AstType::TSNeverKeyword,
    AstType::TSNullKeyword,
    AstType::TSNumberKeyword,
    AstType::TSObjectKeyword,
    AstType::TSStringKeyword,
    AstType::TSSymbolKeyword,
    AstType::TSUndefinedKeyword,
    AstType::TSUnknownKeyword,
    AstType::TSVoidKeyword,
    AstType::TSThisType,
    AstType::JSDocUnknownType,
    AstType::TSArrayType,
    AstType::TSParenthesizedType,
    AstType::TSConditionalType,
    AstType::TSConstructorType,
    AstType::TSFunctionType,
    AstType::TSImportType,
    AstType::TSIndexedAccessType,
    AstType::TSInferType,
    AstType::TSIntersectionType,
    AstType::TSUnionType,
    AstType::TSLiteralType,
    AstType::TSMappedType,
    AstType::TSTemplateLiteralType,
    AstType::TSTupleType,
    AstType::TSTypeLiteral,
    AstType::TSTypeOperator,
    AstType::TSTypePredicate,
    AstType::TSTypeQuery,
    AstType::TSTypeReference,
    AstType::JSDocNullableType,
    AstType::JSDocNonNullableType,
];

/// Whether nodes of the kind are types.
pub fn is_type_kind(kind: AstType) -> bool
    ensures { result ≡ holds_kind type_kinds kind }
{
    TYPE_KINDS.contains(&kind)
}

const DECLARATION_KINDS: [AstType; 8] = [
    AstType::VariableDeclaration,
    AstType::TSTypeAliasDeclaration,
    AstType::TSInterfaceDeclaration,
    AstType::TSEnumDeclaration,
    AstType::TSExternalModuleDeclaration,
    AstType::TSNamespaceDeclaration,
    AstType::TSGlobalDeclaration,
    AstType::TSImportEqualsDeclaration,
];

/// Whether each node of the kind is a declaration.
pub fn is_declaration_kind(kind: AstType) -> bool
    ensures { result ≡ holds_kind declaration_kinds kind }
{
    DECLARATION_KINDS.contains(&kind)
}

const STATEMENT_KINDS: [AstType; 34] = [
    AstType::BlockStatement,
    AstType::EmptyStatement,
    AstType::DebuggerStatement,
    AstType::ExpressionStatement,
    AstType::IfStatement,
    AstType::DoWhileStatement,
    AstType::WhileStatement,
    AstType::ForStatement,
    AstType::ForInStatement,
    AstType::ForOfStatement,
    AstType::ContinueStatement,
    AstType::BreakStatement,
    AstType::ReturnStatement,
    AstType::WithStatement,
    AstType::SwitchStatement,
    AstType::LabeledStatement,
    AstType::ThrowStatement,
    AstType::TryStatement,
    AstType::ImportDeclaration,
    AstType::ExportDeclaration,
    AstType::ExportNamedDeclaration,
    AstType::ExportFromDeclaration,
    AstType::ExportDefaultDeclaration,
    AstType::ExportAllDeclaration,
    AstType::TSExportAssignment,
    AstType::TSNamespaceExportDeclaration,
    AstType::VariableDeclaration,
    AstType::TSTypeAliasDeclaration,
    AstType::TSInterfaceDeclaration,
    AstType::TSEnumDeclaration,
    AstType::TSExternalModuleDeclaration,
    AstType::TSNamespaceDeclaration,
    AstType::TSGlobalDeclaration,
    AstType::TSImportEqualsDeclaration,
];

/// Whether each node of the kind is a statement.
pub fn is_statement_kind(kind: AstType) -> bool
    ensures { result ≡ holds_kind statement_kinds kind }
{
    STATEMENT_KINDS.contains(&kind)
}

/// Whether a text is this word.
pub fn is_word(text: &str, word: &str) -> bool
    requires { is_ascii word.now ≡ true }
    ensures { result ≡ bytes_eq (chars text.now) word.now }
{
    text == word
}

/// Whether a node of this kind and text is a declaration.
pub fn is_declaration(kind: AstType, text: &str) -> bool
    ensures { result ≡ is_declaration kind (chars text.now) }
{
    is_declaration_kind(kind)
        || kind == AstType::Function
            && (is_word(text, "declaration") || is_word(text, "ts-declare"))
        || kind == AstType::Class && is_word(text, "declaration")
}

/// Whether a node of this kind and text is a statement.
pub fn is_statement(kind: AstType, text: &str) -> bool
    ensures { result ≡ is_kind_of_statement kind (chars text.now) }
{
    is_statement_kind(kind) || is_declaration(kind, text)
}

/// Whether a node of this kind and text is an expression.
pub fn is_expression(kind: AstType, text: &str) -> bool
    ensures { result ≡ is_expression kind (chars text.now) }
{
    is_expression_kind(kind)
        || kind == AstType::Function && is_word(text, "expression")
        || kind == AstType::Class && is_word(text, "expression")
}

/// Whether a node of this kind is a member expression.
pub fn is_member(kind: AstType) -> bool
    ensures { result ≡ is_member kind }
{
    matches!(
        kind,
        AstType::ComputedMemberExpression
            | AstType::StaticMemberExpression
            | AstType::PrivateFieldExpression
    )
}

/// Whether a node of this kind is a literal.
pub fn is_literal(kind: AstType) -> bool
    ensures { result ≡ is_literal kind }
{
    matches!(
        kind,
        AstType::BooleanLiteral
            | AstType::NullLiteral
            | AstType::NumericLiteral
            | AstType::BigIntLiteral
            | AstType::RegExpLiteral
            | AstType::StringLiteral
            | AstType::TemplateLiteral
    )
}

/// Whether a node of this kind is a name of an import or export.
pub fn is_module_name(kind: AstType) -> bool
    ensures { result ≡ is_module_name kind }
{
    matches!(kind, AstType::IdentifierName | AstType::StringLiteral)
}

/// Whether a node of this kind and text is a key of a member.
pub fn is_key(kind: AstType, text: &str) -> bool
    ensures { result ≡ is_key kind (chars text.now) }
{
    matches!(kind, AstType::IdentifierName | AstType::PrivateIdentifier)
        || is_expression(kind, text)
}

/// Whether a node of this kind is a name of a type.
pub fn is_type_name(kind: AstType) -> bool
    ensures { result ≡ is_type_name kind }
{
    matches!(
        kind,
        AstType::IdentifierReference | AstType::TSQualifiedName | AstType::ThisExpression
    )
}

/// Whether a node of this kind is a binding pattern.
pub fn is_pattern(kind: AstType) -> bool
    ensures { result ≡ is_pattern kind }
{
    matches!(
        kind,
        AstType::BindingIdentifier
            | AstType::ObjectPattern
            | AstType::ArrayPattern
            | AstType::AssignmentPattern
    )
}

/// Whether a node of this kind is a target that takes one value.
pub fn is_simple_target(kind: AstType) -> bool
    ensures { result ≡ is_simple_target kind }
{
    kind == AstType::IdentifierReference
        || is_member(kind)
        || matches!(
            kind,
            AstType::TSAsExpression
                | AstType::TSSatisfiesExpression
                | AstType::TSTypeAssertion
                | AstType::TSNonNullExpression
        )
}

/// Whether a node of this kind is a target of an assignment.
pub fn is_target(kind: AstType) -> bool
    ensures { result ≡ is_target kind }
{
    is_simple_target(kind)
        || matches!(
            kind,
            AstType::ObjectAssignmentTarget | AstType::ArrayAssignmentTarget
        )
}

/// Whether a node of this kind is a target, maybe with a default.
pub fn is_target_or_default(kind: AstType) -> bool
    ensures { result ≡ is_target_or_default kind }
{
    is_target(kind) || kind == AstType::AssignmentTargetWithDefault
}

/// Whether a node of this kind is a member of a type literal or interface.
pub fn is_signature(kind: AstType) -> bool
    ensures { result ≡ is_signature kind }
{
    matches!(
        kind,
        AstType::TSCallSignatureDeclaration
            | AstType::TSConstructSignatureDeclaration
            | AstType::TSPropertySignature
            | AstType::TSMethodSignature
            | AstType::TSIndexSignature
    )
}

/// Whether a node of this kind is a child of a JSX element.
pub fn is_jsx_child(kind: AstType) -> bool
    ensures { result ≡ is_jsx_child kind }
{
    matches!(
        kind,
        AstType::JSXText
            | AstType::JSXElement
            | AstType::JSXFragment
            | AstType::JSXExpressionContainer
            | AstType::JSXSpreadChild
    )
}

/// Whether a node of this kind is a name of a JSX element.
pub fn is_jsx_name(kind: AstType) -> bool
    ensures { result ≡ is_jsx_name kind }
{
    matches!(
        kind,
        AstType::JSXIdentifier
            | AstType::IdentifierReference
            | AstType::JSXNamespacedName
            | AstType::JSXMemberExpression
            | AstType::ThisExpression
    )
}

/// Whether a node of this kind and text is how a `for` begins.
pub fn is_for_init(kind: AstType, text: &str) -> bool
    ensures { result ≡ is_for_init kind (chars text.now) }
{
    kind == AstType::VariableDeclaration || is_expression(kind, text)
}

/// Whether a node of this kind is the left of a `for in` or `for of`.
pub fn is_loop_left(kind: AstType) -> bool
    ensures { result ≡ is_loop_left kind }
{
    kind == AstType::VariableDeclaration || is_target(kind)
}

/// Whether a node of this kind is an element of a class.
pub fn is_class_element(kind: AstType) -> bool
    ensures { result ≡ is_class_element kind }
{
    matches!(
        kind,
        AstType::MethodDefinition
            | AstType::PropertyDefinition
            | AstType::AccessorProperty
            | AstType::StaticBlock
            | AstType::TSIndexSignature
    )
}

/// Whether a node of this kind is a specifier of an import.
pub fn is_import_clause(kind: AstType) -> bool
    ensures { result ≡ is_import_clause kind }
{
    matches!(
        kind,
        AstType::ImportSpecifier
            | AstType::ImportDefaultSpecifier
            | AstType::ImportNamespaceSpecifier
    )
}

/// Whether a node of this kind and text is what `export default` takes.
pub fn is_default_export(kind: AstType, text: &str) -> bool
    ensures { result ≡ is_default_export kind (chars text.now) }
{
    is_expression(kind, text)
        || matches!(
            kind,
            AstType::Function | AstType::Class | AstType::TSInterfaceDeclaration
        )
}

/// Whether a node of this kind is the local name of an export.
pub fn is_export_local(kind: AstType) -> bool
    ensures { result ≡ is_export_local kind }
{
    kind == AstType::IdentifierReference || is_module_name(kind)
}

/// Whether a node of this kind and text is an item of an array.
pub fn is_array_item(kind: AstType, text: &str) -> bool
    ensures { result ≡ is_array_item kind (chars text.now) }
{
    is_expression(kind, text) || matches!(kind, AstType::SpreadElement | AstType::Elision)
}

/// Whether a node of this kind is an item of an object.
pub fn is_object_item(kind: AstType) -> bool
    ensures { result ≡ is_object_item kind }
{
    matches!(kind, AstType::ObjectProperty | AstType::SpreadElement)
}

/// Whether a node of this kind and text is an argument of a call.
pub fn is_argument(kind: AstType, text: &str) -> bool
    ensures { result ≡ is_argument kind (chars text.now) }
{
    is_expression(kind, text) || kind == AstType::SpreadElement
}

/// Whether a node of this kind and text is an expression or `super`.
pub fn is_callee(kind: AstType, text: &str) -> bool
    ensures { result ≡ is_callee kind (chars text.now) }
{
    is_expression(kind, text) || kind == AstType::Super
}

/// Whether a node of this kind is what an optional chain holds.
pub fn is_chain_element(kind: AstType) -> bool
    ensures { result ≡ is_chain_element kind }
{
    matches!(kind, AstType::CallExpression | AstType::TSNonNullExpression) || is_member(kind)
}

/// Whether a node of this kind and text is the body of an arrow.
pub fn is_arrow_body(kind: AstType, text: &str) -> bool
    ensures { result ≡ is_arrow_body kind (chars text.now) }
{
    kind == AstType::FunctionBody || is_expression(kind, text)
}

/// Whether a node of this kind is a property of an object target.
pub fn is_target_property(kind: AstType) -> bool
    ensures { result ≡ is_target_property kind }
{
    matches!(
        kind,
        AstType::AssignmentTargetPropertyIdentifier | AstType::AssignmentTargetPropertyProperty
    )
}

/// Whether a node of this kind is an attribute or a spread.
pub fn is_jsx_attribute_item(kind: AstType) -> bool
    ensures { result ≡ is_jsx_attribute_item kind }
{
    matches!(kind, AstType::JSXAttribute | AstType::JSXSpreadAttribute)
}

/// Whether a node of this kind is the name of an attribute.
pub fn is_jsx_attribute_name(kind: AstType) -> bool
    ensures { result ≡ is_jsx_attribute_name kind }
{
    matches!(kind, AstType::JSXIdentifier | AstType::JSXNamespacedName)
}

/// Whether a node of this kind is the value of an attribute.
pub fn is_jsx_attribute_value(kind: AstType) -> bool
    ensures { result ≡ is_jsx_attribute_value kind }
{
    matches!(
        kind,
        AstType::StringLiteral
            | AstType::JSXExpressionContainer
            | AstType::JSXElement
            | AstType::JSXFragment
    )
}

/// Whether a node of this kind and text is what JSX braces hold.
pub fn is_jsx_content(kind: AstType, text: &str) -> bool
    ensures { result ≡ is_jsx_content kind (chars text.now) }
{
    is_expression(kind, text) || kind == AstType::JSXEmptyExpression
}

/// Whether a node of this kind is the object of a JSX member.
pub fn is_jsx_object(kind: AstType) -> bool
    ensures { result ≡ is_jsx_object kind }
{
    matches!(
        kind,
        AstType::IdentifierReference | AstType::JSXMemberExpression | AstType::ThisExpression
    )
}

/// Whether a node of this kind is a qualifier of an import type.
pub fn is_import_qualifier(kind: AstType) -> bool
    ensures { result ≡ is_import_qualifier kind }
{
    matches!(
        kind,
        AstType::IdentifierName | AstType::TSImportTypeQualifiedName
    )
}

/// Whether a node of this kind is what a literal type holds.
pub fn is_type_literal_value(kind: AstType) -> bool
    ensures { result ≡ is_type_literal_value kind }
{
    is_literal(kind) || kind == AstType::UnaryExpression
}

/// Whether a node of this kind is an element of a tuple type.
pub fn is_tuple_item(kind: AstType) -> bool
    ensures { result ≡ is_tuple_item kind }
{
    is_type_kind(kind)
        || matches!(
            kind,
            AstType::TSNamedTupleMember | AstType::TSOptionalType | AstType::TSRestType
        )
}

/// Whether a node of this kind is what a rest type holds.
pub fn is_rest_item(kind: AstType) -> bool
    ensures { result ≡ is_rest_item kind }
{
    is_type_kind(kind) || kind == AstType::TSNamedTupleMember
}

/// Whether a node of this kind is what a type predicate speaks of.
pub fn is_predicate_name(kind: AstType) -> bool
    ensures { result ≡ is_predicate_name kind }
{
    matches!(kind, AstType::IdentifierName | AstType::TSThisType)
}

/// Whether a node of this kind is what a type query asks of.
pub fn is_query_name(kind: AstType) -> bool
    ensures { result ≡ is_query_name kind }
{
    is_type_name(kind) || kind == AstType::TSImportType
}

/// Whether a node of this kind is the name of an enum member.
pub fn is_enum_member_name(kind: AstType) -> bool
    ensures { result ≡ is_enum_member_name kind }
{
    is_module_name(kind) || kind == AstType::TemplateLiteral
}

/// Whether a node of this kind is the body of a namespace.
pub fn is_namespace_body(kind: AstType) -> bool
    ensures { result ≡ is_namespace_body kind }
{
    matches!(
        kind,
        AstType::TSModuleBlock | AstType::TSNamespaceDeclaration
    )
}

/// Whether a node of this kind is what `import =` takes.
pub fn is_import_equals_target(kind: AstType) -> bool
    ensures { result ≡ is_import_equals_target kind }
{
    matches!(
        kind,
        AstType::IdentifierReference | AstType::TSQualifiedName | AstType::TSExternalModuleReference
    )
}

/// Whether a node of this kind and text is of the class.
pub fn is_of(class: Class, kind: AstType, text: &str) -> bool
    ensures { result ≡ is_of class kind (chars text.now) }
{
    match class {
        Class::Statement => is_statement(kind, text),
        Class::Declaration => is_declaration(kind, text),
        Class::Expression => is_expression(kind, text),
        Class::Type => is_type_kind(kind),
        Class::Member => is_member(kind),
        Class::Literal => is_literal(kind),
        Class::ModuleName => is_module_name(kind),
        Class::Key => is_key(kind, text),
        Class::TypeName => is_type_name(kind),
        Class::Pattern => is_pattern(kind),
        Class::SimpleTarget => is_simple_target(kind),
        Class::Target => is_target(kind),
        Class::TargetOrDefault => is_target_or_default(kind),
        Class::Signature => is_signature(kind),
        Class::JsxChild => is_jsx_child(kind),
        Class::JsxName => is_jsx_name(kind),
        Class::ForInit => is_for_init(kind, text),
        Class::LoopLeft => is_loop_left(kind),
        Class::ClassElement => is_class_element(kind),
        Class::ImportClause => is_import_clause(kind),
        Class::DefaultExport => is_default_export(kind, text),
        Class::ExportLocal => is_export_local(kind),
        Class::ArrayItem => is_array_item(kind, text),
        Class::ObjectItem => is_object_item(kind),
        Class::Argument => is_argument(kind, text),
        Class::Callee => is_callee(kind, text),
        Class::ChainElement => is_chain_element(kind),
        Class::ArrowBody => is_arrow_body(kind, text),
        Class::TargetProperty => is_target_property(kind),
        Class::JsxAttributeItem => is_jsx_attribute_item(kind),
        Class::JsxAttributeName => is_jsx_attribute_name(kind),
        Class::JsxAttributeValue => is_jsx_attribute_value(kind),
        Class::JsxContent => is_jsx_content(kind, text),
        Class::JsxObject => is_jsx_object(kind),
        Class::ImportQualifier => is_import_qualifier(kind),
        Class::TypeLiteralValue => is_type_literal_value(kind),
        Class::TupleItem => is_tuple_item(kind),
        Class::RestItem => is_rest_item(kind),
        Class::PredicateName => is_predicate_name(kind),
        Class::QueryName => is_query_name(kind),
        Class::EnumMemberName => is_enum_member_name(kind),
        Class::NamespaceBody => is_namespace_body(kind),
        Class::ImportEqualsTarget => is_import_equals_target(kind),
        Class::Only(only) => kind == only,
    }
}
