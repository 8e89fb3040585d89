//! The parts of TypeScript's declarations.

ghost use Rattle.std.specs.Prelude.{◌≡◌};
ghost use Rattle.semantic_kinds.specs.Parts.{typescript_parts};

use crate::class::Class;
use crate::kind::AstType;
use crate::part::{Count, Part};
use crate::role::Role;

/// The parts of a node of the kind, if it is one of TypeScript's declarations, else none.
pub fn parts(kind: AstType) -> &'static [Part]
    ensures { result.now ≡ typescript_parts kind }
{
    match kind {
        AstType::TSTypeAliasDeclaration => &[
            Part {
                role: Role::Id,
                count: Count::One,
                class: Class::Only(AstType::BindingIdentifier),
            },
            Part {
                role: Role::TypeParameters,
                count: Count::AtMostOne,
                class: Class::Only(AstType::TSTypeParameterDeclaration),
            },
            Part {
                role: Role::ValueType,
                count: Count::One,
                class: Class::Type,
            },
        ],
        AstType::TSInterfaceDeclaration => &[
            Part {
                role: Role::Id,
                count: Count::One,
                class: Class::Only(AstType::BindingIdentifier),
            },
            Part {
                role: Role::TypeParameters,
                count: Count::AtMostOne,
                class: Class::Only(AstType::TSTypeParameterDeclaration),
            },
            Part {
                role: Role::Extends,
                count: Count::AnyNumber,
                class: Class::Only(AstType::TSInterfaceHeritage),
            },
            Part {
                role: Role::Body,
                count: Count::One,
                class: Class::Only(AstType::TSInterfaceBody),
            },
        ],
        AstType::TSInterfaceBody => &[Part {
            role: Role::Body,
            count: Count::AnyNumber,
            class: Class::Signature,
        }],
        AstType::TSInterfaceHeritage | AstType::TSClassImplements => &[
            Part {
                role: Role::Name,
                count: Count::One,
                class: Class::TypeName,
            },
            Part {
                role: Role::TypeArguments,
                count: Count::AtMostOne,
                class: Class::Only(AstType::TSTypeParameterInstantiation),
            },
        ],
        AstType::TSEnumDeclaration => &[
            Part {
                role: Role::Id,
                count: Count::One,
                class: Class::Only(AstType::BindingIdentifier),
            },
            Part {
                role: Role::Body,
                count: Count::One,
                class: Class::Only(AstType::TSEnumBody),
            },
        ],
        AstType::TSEnumBody => &[Part {
            role: Role::Members,
            count: Count::AnyNumber,
            class: Class::Only(AstType::TSEnumMember),
        }],
        AstType::TSEnumMember => &[
            Part {
                role: Role::Id,
                count: Count::One,
                class: Class::EnumMemberName,
            },
            Part {
                role: Role::Initializer,
                count: Count::AtMostOne,
                class: Class::Expression,
            },
        ],
        AstType::TSExternalModuleDeclaration => &[
            Part {
                role: Role::Id,
                count: Count::One,
                class: Class::Only(AstType::StringLiteral),
            },
            Part {
                role: Role::Body,
                count: Count::AtMostOne,
                class: Class::Only(AstType::TSModuleBlock),
            },
        ],
        AstType::TSNamespaceDeclaration => &[
            Part {
                role: Role::Id,
                count: Count::One,
                class: Class::Only(AstType::BindingIdentifier),
            },
            Part {
                role: Role::Body,
                count: Count::One,
                class: Class::NamespaceBody,
            },
        ],
        AstType::TSGlobalDeclaration => &[Part {
            role: Role::Body,
            count: Count::One,
            class: Class::Only(AstType::TSModuleBlock),
        }],
        AstType::TSModuleBlock => &[
            Part {
                role: Role::Directives,
                count: Count::AnyNumber,
                class: Class::Only(AstType::Directive),
            },
            Part {
                role: Role::Body,
                count: Count::AnyNumber,
                class: Class::Statement,
            },
        ],
        AstType::TSImportEqualsDeclaration => &[
            Part {
                role: Role::Id,
                count: Count::One,
                class: Class::Only(AstType::BindingIdentifier),
            },
            Part {
                role: Role::Reference,
                count: Count::One,
                class: Class::ImportEqualsTarget,
            },
        ],
        AstType::TSExternalModuleReference => &[Part {
            role: Role::Expression,
            count: Count::One,
            class: Class::Only(AstType::StringLiteral),
        }],
        AstType::TSExportAssignment => &[Part {
            role: Role::Expression,
            count: Count::One,
            class: Class::Expression,
        }],
        AstType::TSNamespaceExportDeclaration => &[Part {
            role: Role::Id,
            count: Count::One,
            class: Class::Only(AstType::IdentifierName),
        }],
        _ => &[],
    }
}
