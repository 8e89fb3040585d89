//! The parts of types.

ghost use Rattle.std.specs.Prelude.{◌≡◌};
ghost use Rattle.semantic_kinds.specs.Parts.{type_parts};

use crate::class::Class;
use crate::kind::AstType;
use crate::part::{Count, Part, typescript};
use crate::role::Role;

/// The parts of a node of the kind, if it is one of types, else as the headings that follow say.
pub fn parts(kind: AstType) -> &'static [Part]
    ensures { result.now ≡ type_parts kind }
{
    match kind {
        AstType::TSAnyKeyword
        | AstType::TSBigIntKeyword
        | AstType::TSBooleanKeyword
        | AstType::TSIntrinsicKeyword
        | AstType::TSNeverKeyword
        | AstType::TSNullKeyword
        | AstType::TSNumberKeyword
        | AstType::TSObjectKeyword
        | AstType::TSStringKeyword
        | AstType::TSSymbolKeyword
        | AstType::TSUndefinedKeyword
        | AstType::TSUnknownKeyword
        | AstType::TSVoidKeyword
        | AstType::TSThisType
        | AstType::JSDocUnknownType => &[],
        AstType::TSArrayType | AstType::TSParenthesizedType => &[Part {
            role: Role::Element,
            count: Count::One,
            class: Class::Type,
        }],
        AstType::TSConditionalType => &[
            Part {
                role: Role::Check,
                count: Count::One,
                class: Class::Type,
            },
            Part {
                role: Role::Extends,
                count: Count::One,
                class: Class::Type,
            },
            Part {
                role: Role::True,
                count: Count::One,
                class: Class::Type,
            },
            Part {
                role: Role::False,
                count: Count::One,
                class: Class::Type,
            },
        ],
        AstType::TSConstructorType
        | AstType::TSFunctionType
        | AstType::TSCallSignatureDeclaration
        | AstType::TSConstructSignatureDeclaration => &[
            Part {
                role: Role::TypeParameters,
                count: Count::AtMostOne,
                class: Class::Only(AstType::TSTypeParameterDeclaration),
            },
            Part {
                role: Role::This,
                count: Count::AtMostOne,
                class: Class::Only(AstType::TSThisParameter),
            },
            Part {
                role: Role::Params,
                count: Count::One,
                class: Class::Only(AstType::FormalParameters),
            },
            Part {
                role: Role::ReturnType,
                count: Count::AtMostOne,
                class: Class::Only(AstType::TSTypeAnnotation),
            },
        ],
        AstType::TSImportType => &[
            Part {
                role: Role::Argument,
                count: Count::One,
                class: Class::Only(AstType::StringLiteral),
            },
            Part {
                role: Role::Options,
                count: Count::AtMostOne,
                class: Class::Only(AstType::ObjectExpression),
            },
            Part {
                role: Role::Qualifier,
                count: Count::AtMostOne,
                class: Class::ImportQualifier,
            },
            Part {
                role: Role::TypeArguments,
                count: Count::AtMostOne,
                class: Class::Only(AstType::TSTypeParameterInstantiation),
            },
        ],
        AstType::TSImportTypeQualifiedName => &[
            Part {
                role: Role::Left,
                count: Count::One,
                class: Class::ImportQualifier,
            },
            Part {
                role: Role::Right,
                count: Count::One,
                class: Class::Only(AstType::IdentifierName),
            },
        ],
        AstType::TSIndexedAccessType => &[
            Part {
                role: Role::Object,
                count: Count::One,
                class: Class::Type,
            },
            Part {
                role: Role::Index,
                count: Count::One,
                class: Class::Type,
            },
        ],
        AstType::TSInferType => &[Part {
            role: Role::Parameter,
            count: Count::One,
            class: Class::Only(AstType::TSTypeParameter),
        }],
        AstType::TSIntersectionType | AstType::TSUnionType => &[Part {
            role: Role::Types,
            count: Count::AtLeastOne,
            class: Class::Type,
        }],
        AstType::TSLiteralType => &[Part {
            role: Role::Literal,
            count: Count::One,
            class: Class::TypeLiteralValue,
        }],
        AstType::TSMappedType => &[
            Part {
                role: Role::Key,
                count: Count::One,
                class: Class::Only(AstType::BindingIdentifier),
            },
            Part {
                role: Role::Constraint,
                count: Count::One,
                class: Class::Type,
            },
            Part {
                role: Role::NameType,
                count: Count::AtMostOne,
                class: Class::Type,
            },
            Part {
                role: Role::ValueType,
                count: Count::AtMostOne,
                class: Class::Type,
            },
        ],
        AstType::TSTemplateLiteralType => &[
            Part {
                role: Role::Quasis,
                count: Count::AtLeastOne,
                class: Class::Only(AstType::TemplateElement),
            },
            Part {
                role: Role::Types,
                count: Count::AnyNumber,
                class: Class::Type,
            },
        ],
        AstType::TSTupleType => &[Part {
            role: Role::Elements,
            count: Count::AnyNumber,
            class: Class::TupleItem,
        }],
        AstType::TSNamedTupleMember => &[
            Part {
                role: Role::Label,
                count: Count::One,
                class: Class::Only(AstType::IdentifierName),
            },
            Part {
                role: Role::Element,
                count: Count::One,
                class: Class::Type,
            },
        ],
        AstType::TSOptionalType => &[Part {
            role: Role::Element,
            count: Count::One,
            class: Class::Type,
        }],
        AstType::TSRestType => &[Part {
            role: Role::Element,
            count: Count::One,
            class: Class::RestItem,
        }],
        AstType::TSTypeLiteral => &[Part {
            role: Role::Members,
            count: Count::AnyNumber,
            class: Class::Signature,
        }],
        AstType::TSTypeOperator => &[Part {
            role: Role::Element,
            count: Count::One,
            class: Class::Type,
        }],
        AstType::TSTypePredicate => &[
            Part {
                role: Role::Name,
                count: Count::One,
                class: Class::PredicateName,
            },
            Part {
                role: Role::Annotation,
                count: Count::AtMostOne,
                class: Class::Only(AstType::TSTypeAnnotation),
            },
        ],
        AstType::TSTypeQuery => &[
            Part {
                role: Role::Name,
                count: Count::One,
                class: Class::QueryName,
            },
            Part {
                role: Role::TypeArguments,
                count: Count::AtMostOne,
                class: Class::Only(AstType::TSTypeParameterInstantiation),
            },
        ],
        AstType::TSTypeReference => &[
            Part {
                role: Role::Name,
                count: Count::One,
                class: Class::TypeName,
            },
            Part {
                role: Role::TypeArguments,
                count: Count::AtMostOne,
                class: Class::Only(AstType::TSTypeParameterInstantiation),
            },
        ],
        AstType::JSDocNullableType | AstType::JSDocNonNullableType => &[Part {
            role: Role::Element,
            count: Count::One,
            class: Class::Type,
        }],
        AstType::TSQualifiedName => &[
            Part {
                role: Role::Left,
                count: Count::One,
                class: Class::TypeName,
            },
            Part {
                role: Role::Right,
                count: Count::One,
                class: Class::Only(AstType::IdentifierName),
            },
        ],
        AstType::TSTypeAnnotation => &[Part {
            role: Role::Element,
            count: Count::One,
            class: Class::Type,
        }],
        AstType::TSTypeParameterDeclaration => &[Part {
            role: Role::Params,
            count: Count::AtLeastOne,
            class: Class::Only(AstType::TSTypeParameter),
        }],
        AstType::TSTypeParameterInstantiation => &[Part {
            role: Role::Params,
            count: Count::AnyNumber,
            class: Class::Type,
        }],
        AstType::TSTypeParameter => &[
            Part {
                role: Role::Name,
                count: Count::One,
                class: Class::Only(AstType::BindingIdentifier),
            },
            Part {
                role: Role::Constraint,
                count: Count::AtMostOne,
                class: Class::Type,
            },
            Part {
                role: Role::Default,
                count: Count::AtMostOne,
                class: Class::Type,
            },
        ],
        AstType::TSThisParameter => &[Part {
            role: Role::Annotation,
            count: Count::AtMostOne,
            class: Class::Only(AstType::TSTypeAnnotation),
        }],
        AstType::TSPropertySignature => &[
            Part {
                role: Role::Key,
                count: Count::One,
                class: Class::Key,
            },
            Part {
                role: Role::Annotation,
                count: Count::AtMostOne,
                class: Class::Only(AstType::TSTypeAnnotation),
            },
        ],
        AstType::TSMethodSignature => &[
            Part {
                role: Role::Key,
                count: Count::One,
                class: Class::Key,
            },
            Part {
                role: Role::TypeParameters,
                count: Count::AtMostOne,
                class: Class::Only(AstType::TSTypeParameterDeclaration),
            },
            Part {
                role: Role::This,
                count: Count::AtMostOne,
                class: Class::Only(AstType::TSThisParameter),
            },
            Part {
                role: Role::Params,
                count: Count::One,
                class: Class::Only(AstType::FormalParameters),
            },
            Part {
                role: Role::ReturnType,
                count: Count::AtMostOne,
                class: Class::Only(AstType::TSTypeAnnotation),
            },
        ],
        AstType::TSIndexSignature => &[
            Part {
                role: Role::Parameters,
                count: Count::AtLeastOne,
                class: Class::Only(AstType::TSIndexSignatureName),
            },
            Part {
                role: Role::Annotation,
                count: Count::One,
                class: Class::Only(AstType::TSTypeAnnotation),
            },
        ],
        AstType::TSIndexSignatureName => &[Part {
            role: Role::Annotation,
            count: Count::One,
            class: Class::Only(AstType::TSTypeAnnotation),
        }],
        _ => typescript::parts(kind),
    }
}
