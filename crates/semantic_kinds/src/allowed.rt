//! Which texts and marks each kind of node may have.

ghost use Rattle.std.specs.Prelude.{◌≡◌, ℕ, List, true, map};
ghost use Rattle.std.specs.List.{list_any, list_all};
ghost use Rattle.semantic_kinds.specs.Ascii.{is_ascii};
ghost use Rattle.semantic_kinds.specs.Texts.{text_rule, is_word_of, may_have_text};
ghost use Rattle.std.specs.Str.{bytes_eq, chars};
ghost use Rattle.semantic_kinds.specs.Allowed.{allowed_marks};

use crate::class::is_word;
use crate::kind::AstType;
use crate::mark::Mark;

/// What the text of a node may be.
#[derive(Clone, Copy, PartialEq, Eq, Debug)]
pub enum TextRule {
    /// No text.
    Empty,
    /// Some text.
    Name,
    /// Any text.
    Any,
    /// One of the words of the kind.
    OneOf,
}

/// What the text of a node of a kind may be.
pub fn text_rule(kind: AstType) -> TextRule
    ensures { result ≡ text_rule kind }
{
    match kind {
        AstType::BindingIdentifier
        | AstType::IdentifierReference
        | AstType::IdentifierName
        | AstType::LabelIdentifier
        | AstType::PrivateIdentifier
        | AstType::NumericLiteral
        | AstType::BigIntLiteral
        | AstType::RegExpLiteral
        | AstType::BinaryExpression
        | AstType::LogicalExpression
        | AstType::AssignmentExpression
        | AstType::JSXIdentifier
        | AstType::TSIndexSignatureName => TextRule::Name,
        AstType::Hashbang
        | AstType::Directive
        | AstType::StringLiteral
        | AstType::TemplateElement
        | AstType::JSXText => TextRule::Any,
        AstType::VariableDeclaration
        | AstType::Function
        | AstType::FormalParameters
        | AstType::Class
        | AstType::MethodDefinition
        | AstType::BooleanLiteral
        | AstType::ObjectProperty
        | AstType::UnaryExpression
        | AstType::UpdateExpression
        | AstType::TSTypeOperator
        | AstType::TSMethodSignature => TextRule::OneOf,
        _ => TextRule::Empty,
    }
}

/// The marks that a node of a kind may have.
pub fn allowed_marks(kind: AstType) -> &'static [Mark]
    ensures { result.now ≡ allowed_marks kind }
{
    match kind {
        AstType::ForOfStatement => &[Mark::Await],
        AstType::VariableDeclaration => &[Mark::Declare],
        AstType::VariableDeclarator => &[Mark::Definite],
        AstType::Function => &[Mark::Async, Mark::Generator, Mark::Declare, Mark::Pure],
        AstType::FormalParameter => &[
            Mark::Public,
            Mark::Private,
            Mark::Protected,
            Mark::Readonly,
            Mark::Override,
            Mark::Optional,
        ],
        AstType::BindingProperty => &[Mark::Shorthand, Mark::Computed],
        AstType::Class => &[Mark::Declare, Mark::Abstract],
        AstType::MethodDefinition => &[
            Mark::Static,
            Mark::Computed,
            Mark::Abstract,
            Mark::Optional,
            Mark::Override,
            Mark::Public,
            Mark::Private,
            Mark::Protected,
        ],
        AstType::PropertyDefinition | AstType::AccessorProperty => &[
            Mark::Declare,
            Mark::Static,
            Mark::Computed,
            Mark::Abstract,
            Mark::Optional,
            Mark::Definite,
            Mark::Readonly,
            Mark::Override,
            Mark::Public,
            Mark::Private,
            Mark::Protected,
        ],
        AstType::ImportDeclaration
        | AstType::ImportSpecifier
        | AstType::ExportNamedDeclaration
        | AstType::ExportFromDeclaration
        | AstType::ExportAllDeclaration
        | AstType::ExportSpecifier => &[Mark::TypeOnly],
        AstType::NumericLiteral => &[
            Mark::Binary,
            Mark::Octal,
            Mark::Decimal,
            Mark::Hex,
            Mark::Float,
        ],
        AstType::ObjectProperty => &[Mark::Method, Mark::Shorthand, Mark::Computed],
        AstType::CallExpression => &[Mark::Optional, Mark::Pure],
        AstType::NewExpression => &[Mark::Pure],
        AstType::ComputedMemberExpression
        | AstType::StaticMemberExpression
        | AstType::PrivateFieldExpression => &[Mark::Optional],
        AstType::UpdateExpression => &[Mark::Prefix],
        AstType::YieldExpression => &[Mark::Delegate],
        AstType::ArrowFunctionExpression => &[Mark::Async, Mark::Pure],
        AstType::AssignmentTargetPropertyProperty => &[Mark::Computed],
        AstType::TSConstructorType => &[Mark::Abstract],
        AstType::TSMappedType => &[Mark::Optional, Mark::Readonly],
        AstType::TSNamedTupleMember => &[Mark::Optional],
        AstType::TSTypePredicate => &[Mark::Asserts],
        AstType::JSDocNullableType | AstType::JSDocNonNullableType => &[Mark::Postfix],
        AstType::TSTypeParameter => &[Mark::Const, Mark::In, Mark::Out],
        AstType::TSPropertySignature => &[Mark::Computed, Mark::Optional, Mark::Readonly],
        AstType::TSMethodSignature => &[Mark::Computed, Mark::Optional],
        AstType::TSIndexSignature => &[Mark::Static, Mark::Readonly],
        AstType::TSTypeAliasDeclaration | AstType::TSInterfaceDeclaration => &[Mark::Declare],
        AstType::TSEnumDeclaration => &[Mark::Declare, Mark::Const],
        AstType::TSEnumMember => &[Mark::Computed],
        AstType::TSExternalModuleDeclaration
        | AstType::TSNamespaceDeclaration
        | AstType::TSGlobalDeclaration => &[Mark::Declare],
        AstType::TSImportEqualsDeclaration => &[Mark::TypeOnly],
        _ => &[],
    }
}

/// The words of a kind whose text is one of some words.
fn words_of(kind: AstType) -> &'static [&'static str]
    ensures words { (text : List ℕ) →
        list_any (bytes_eq text) (map (λ word. word.now) result.now) ≡ is_word_of kind text }
    ensures ascii { list_all is_ascii (map (λ word. word.now) result.now) ≡ true }
{
    match kind {
        AstType::VariableDeclaration => &["var", "let", "const", "using", "await using"],
        AstType::Function => &["declaration", "expression", "ts-declare", "ts-empty-body"],
        AstType::FormalParameters => &["formal", "unique", "arrow", "signature"],
        AstType::Class => &["declaration", "expression"],
        AstType::MethodDefinition => &["constructor", "method", "get", "set"],
        AstType::BooleanLiteral => &["true", "false"],
        AstType::ObjectProperty => &["init", "get", "set"],
        AstType::UnaryExpression => &["+", "-", "!", "~", "typeof", "void", "delete"],
        AstType::UpdateExpression => &["++", "--"],
        AstType::TSTypeOperator => &["keyof", "unique", "readonly"],
        AstType::TSMethodSignature => &["method", "get", "set"],
        _ => &[],
    }
}

/// Whether the text is a word of a kind whose text is one of some words.
pub fn is_word_of(kind: AstType, text: &str) -> bool
    ensures { result ≡ is_word_of kind (chars text.now) }
{
    words_of(kind).contains(&text)
}

/// Whether a node of the kind may have the text.
pub fn may_have_text(kind: AstType, text: &str) -> bool
    ensures { result ≡ may_have_text kind (chars text.now) }
{
    match text_rule(kind) {
        TextRule::Empty => is_word(text, ""),
        TextRule::Name => !is_word(text, ""),
        TextRule::Any => true,
        TextRule::OneOf => is_word_of(kind, text),
    }
}
