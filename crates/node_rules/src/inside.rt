//! Which nodes open a scope, which of their children stand inside it, and which are their header: the environments of
//! ECMAScript, and for types TypeScript's `getContainerFlags`.

ghost use Rattle.std.specs.Prelude.{◌≡◌};
ghost use Rattle.semantic_model.specs.Inside.{opens, is_inside, is_in_header, is_parameter_decorator};

use semantic_tree::{AstType, Role};

/// Whether a node of the kind opens a scope: blocks, `switch`, `with` and catch clauses (ECMAScript 14.2.2, 14.12.4,
/// 14.11.2, 14.15.2), loops (14.7.4.2, 14.7.5.5), functions (10.2.11), classes and static blocks (15.7.14, 15.7.12),
/// and types, namespaces and enums (TypeScript's `getContainerFlags`).
pub fn opens(kind: AstType) -> bool
    ensures { result ≡ opens kind }
{
    matches!(
        kind,
        AstType::Program
            | AstType::Class
            | AstType::Function
            | AstType::ArrowFunctionExpression
            | AstType::BlockStatement
            | AstType::ForStatement
            | AstType::ForInStatement
            | AstType::ForOfStatement
            | AstType::SwitchStatement
            | AstType::WithStatement
            | AstType::CatchClause
            | AstType::StaticBlock
            | AstType::TSNamespaceDeclaration
            | AstType::TSExternalModuleDeclaration
            | AstType::TSGlobalDeclaration
            | AstType::TSTypeAliasDeclaration
            | AstType::TSInterfaceDeclaration
            | AstType::TSMethodSignature
            | AstType::TSMappedType
            | AstType::TSEnumBody
            | AstType::TSFunctionType
            | AstType::TSConstructorType
            | AstType::TSCallSignatureDeclaration
            | AstType::TSConstructSignatureDeclaration
            | AstType::TSConditionalType
    )
}

/// Whether a child in the role stands inside the scope of a parent of the kind. What a `switch` or a `with` asks for
/// first stands outside (ECMAScript 14.12.4, 14.11.2).
pub fn is_inside(parent: AstType, role: Role) -> bool
    ensures { result ≡ is_inside parent role }
{
    match parent {
        AstType::Class => role != Role::Decorators,
        AstType::SwitchStatement => role == Role::Cases,
        AstType::WithStatement
        | AstType::TSNamespaceDeclaration
        | AstType::TSExternalModuleDeclaration => role == Role::Body,
        AstType::TSTypeAliasDeclaration | AstType::TSInterfaceDeclaration => role != Role::Id,
        AstType::TSMethodSignature => role != Role::Key,
        AstType::TSConditionalType => role == Role::Extends || role == Role::True,
        other => opens(other),
    }
}

/// Whether a child in the role is a part of its parent's header: what is settled before the body is seen (ECMAScript
/// 10.2.11, FunctionDeclarationInstantiation; 14.15.2, CatchClauseEvaluation).
pub fn is_in_header(parent: AstType, role: Role) -> bool
    ensures { result ≡ is_in_header parent role }
{
    match parent {
        AstType::Function | AstType::ArrowFunctionExpression => matches!(
            role,
            Role::TypeParameters | Role::This | Role::Params | Role::ReturnType
        ),
        AstType::CatchClause => role == Role::Param,
        _ => false,
    }
}

/// Whether a child in the role is a decorator of a parameter, which stands outside the parameter's scope
/// (TypeScript's `resolveName`).
pub fn is_parameter_decorator(parent: AstType, role: Role) -> bool
    ensures { result ≡ is_parameter_decorator parent role }
{
    matches!(
        parent,
        AstType::FormalParameter | AstType::FormalParameterRest
    ) && role == Role::Decorators
}
