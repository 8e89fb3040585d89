//! The parts of expressions.

ghost use Rattle.std.specs.Prelude.{◌≡◌};
ghost use Rattle.semantic_kinds.specs.Parts.{expression_parts};

use crate::class::Class;
use crate::kind::AstType;
use crate::part::{Count, Part, types};
use crate::role::Role;

/// The parts of a node of the kind, if it is one of expressions, else as the headings that follow say.
pub fn parts(kind: AstType) -> &'static [Part]
    ensures { result.now ≡ expression_parts kind }
{
    match kind {
        AstType::BooleanLiteral
        | AstType::NullLiteral
        | AstType::NumericLiteral
        | AstType::BigIntLiteral
        | AstType::RegExpLiteral
        | AstType::StringLiteral => &[],
        AstType::TemplateLiteral => &[
            Part {
                role: Role::Quasis,
                count: Count::AtLeastOne,
                class: Class::Only(AstType::TemplateElement),
            },
            Part {
                role: Role::Expressions,
                count: Count::AnyNumber,
                class: Class::Expression,
            },
        ],
        AstType::TemplateElement => &[],
        AstType::TaggedTemplateExpression => &[
            Part {
                role: Role::Tag,
                count: Count::One,
                class: Class::Expression,
            },
            Part {
                role: Role::TypeArguments,
                count: Count::AtMostOne,
                class: Class::Only(AstType::TSTypeParameterInstantiation),
            },
            Part {
                role: Role::Quasi,
                count: Count::One,
                class: Class::Only(AstType::TemplateLiteral),
            },
        ],
        AstType::ThisExpression | AstType::Super => &[],
        AstType::MetaProperty => &[
            Part {
                role: Role::Meta,
                count: Count::One,
                class: Class::Only(AstType::IdentifierName),
            },
            Part {
                role: Role::Property,
                count: Count::One,
                class: Class::Only(AstType::IdentifierName),
            },
        ],
        AstType::ArrayExpression => &[Part {
            role: Role::Elements,
            count: Count::AnyNumber,
            class: Class::ArrayItem,
        }],
        AstType::Elision => &[],
        AstType::SpreadElement => &[Part {
            role: Role::Argument,
            count: Count::One,
            class: Class::Expression,
        }],
        AstType::ObjectExpression => &[Part {
            role: Role::Properties,
            count: Count::AnyNumber,
            class: Class::ObjectItem,
        }],
        AstType::ObjectProperty => &[
            Part {
                role: Role::Key,
                count: Count::One,
                class: Class::Key,
            },
            Part {
                role: Role::Value,
                count: Count::One,
                class: Class::Expression,
            },
        ],
        AstType::CallExpression | AstType::NewExpression => &[
            Part {
                role: Role::Callee,
                count: Count::One,
                class: Class::Callee,
            },
            Part {
                role: Role::TypeArguments,
                count: Count::AtMostOne,
                class: Class::Only(AstType::TSTypeParameterInstantiation),
            },
            Part {
                role: Role::Arguments,
                count: Count::AnyNumber,
                class: Class::Argument,
            },
        ],
        AstType::ImportExpression => &[
            Part {
                role: Role::Argument,
                count: Count::One,
                class: Class::Expression,
            },
            Part {
                role: Role::Options,
                count: Count::AtMostOne,
                class: Class::Expression,
            },
        ],
        AstType::ComputedMemberExpression => &[
            Part {
                role: Role::Object,
                count: Count::One,
                class: Class::Callee,
            },
            Part {
                role: Role::Expression,
                count: Count::One,
                class: Class::Expression,
            },
        ],
        AstType::StaticMemberExpression => &[
            Part {
                role: Role::Object,
                count: Count::One,
                class: Class::Callee,
            },
            Part {
                role: Role::Property,
                count: Count::One,
                class: Class::Only(AstType::IdentifierName),
            },
        ],
        AstType::PrivateFieldExpression => &[
            Part {
                role: Role::Object,
                count: Count::One,
                class: Class::Callee,
            },
            Part {
                role: Role::Field,
                count: Count::One,
                class: Class::Only(AstType::PrivateIdentifier),
            },
        ],
        AstType::ChainExpression => &[Part {
            role: Role::Expression,
            count: Count::One,
            class: Class::ChainElement,
        }],
        AstType::UnaryExpression => &[Part {
            role: Role::Argument,
            count: Count::One,
            class: Class::Expression,
        }],
        AstType::UpdateExpression => &[Part {
            role: Role::Argument,
            count: Count::One,
            class: Class::SimpleTarget,
        }],
        AstType::BinaryExpression => &[
            Part {
                role: Role::Left,
                count: Count::One,
                class: Class::Expression,
            },
            Part {
                role: Role::Right,
                count: Count::One,
                class: Class::Expression,
            },
        ],
        AstType::PrivateInExpression => &[
            Part {
                role: Role::Left,
                count: Count::One,
                class: Class::Only(AstType::PrivateIdentifier),
            },
            Part {
                role: Role::Right,
                count: Count::One,
                class: Class::Expression,
            },
        ],
        AstType::LogicalExpression => &[
            Part {
                role: Role::Left,
                count: Count::One,
                class: Class::Expression,
            },
            Part {
                role: Role::Right,
                count: Count::One,
                class: Class::Expression,
            },
        ],
        AstType::ConditionalExpression => &[
            Part {
                role: Role::Test,
                count: Count::One,
                class: Class::Expression,
            },
            Part {
                role: Role::Consequent,
                count: Count::One,
                class: Class::Expression,
            },
            Part {
                role: Role::Alternate,
                count: Count::One,
                class: Class::Expression,
            },
        ],
        AstType::AssignmentExpression => &[
            Part {
                role: Role::Left,
                count: Count::One,
                class: Class::Target,
            },
            Part {
                role: Role::Right,
                count: Count::One,
                class: Class::Expression,
            },
        ],
        AstType::SequenceExpression => &[Part {
            role: Role::Expressions,
            count: Count::AtLeastOne,
            class: Class::Expression,
        }],
        AstType::ParenthesizedExpression => &[Part {
            role: Role::Expression,
            count: Count::One,
            class: Class::Expression,
        }],
        AstType::AwaitExpression => &[Part {
            role: Role::Argument,
            count: Count::One,
            class: Class::Expression,
        }],
        AstType::YieldExpression => &[Part {
            role: Role::Argument,
            count: Count::AtMostOne,
            class: Class::Expression,
        }],
        AstType::ArrowFunctionExpression => &[
            Part {
                role: Role::TypeParameters,
                count: Count::AtMostOne,
                class: Class::Only(AstType::TSTypeParameterDeclaration),
            },
            Part {
                role: Role::Params,
                count: Count::One,
                class: Class::Only(AstType::FormalParameters),
            },
            Part {
                role: Role::ReturnType,
                count: Count::AtMostOne,
                class: Class::Only(AstType::TSTypeAnnotation),
            },
            Part {
                role: Role::Body,
                count: Count::One,
                class: Class::ArrowBody,
            },
        ],
        AstType::ObjectAssignmentTarget => &[
            Part {
                role: Role::Properties,
                count: Count::AnyNumber,
                class: Class::TargetProperty,
            },
            Part {
                role: Role::Rest,
                count: Count::AtMostOne,
                class: Class::Only(AstType::AssignmentTargetRest),
            },
        ],
        AstType::AssignmentTargetPropertyIdentifier => &[
            Part {
                role: Role::Binding,
                count: Count::One,
                class: Class::Only(AstType::IdentifierReference),
            },
            Part {
                role: Role::Init,
                count: Count::AtMostOne,
                class: Class::Expression,
            },
        ],
        AstType::AssignmentTargetPropertyProperty => &[
            Part {
                role: Role::Key,
                count: Count::One,
                class: Class::Key,
            },
            Part {
                role: Role::Binding,
                count: Count::One,
                class: Class::TargetOrDefault,
            },
        ],
        AstType::ArrayAssignmentTarget => &[
            Part {
                role: Role::Elements,
                count: Count::AnyNumber,
                class: Class::TargetOrDefault,
            },
            Part {
                role: Role::Rest,
                count: Count::AtMostOne,
                class: Class::Only(AstType::AssignmentTargetRest),
            },
        ],
        AstType::AssignmentTargetWithDefault => &[
            Part {
                role: Role::Binding,
                count: Count::One,
                class: Class::Target,
            },
            Part {
                role: Role::Init,
                count: Count::One,
                class: Class::Expression,
            },
        ],
        AstType::AssignmentTargetRest => &[Part {
            role: Role::Binding,
            count: Count::One,
            class: Class::Target,
        }],
        AstType::TSAsExpression | AstType::TSSatisfiesExpression | AstType::TSTypeAssertion => &[
            Part {
                role: Role::Expression,
                count: Count::One,
                class: Class::Expression,
            },
            Part {
                role: Role::Annotation,
                count: Count::One,
                class: Class::Type,
            },
        ],
        AstType::TSNonNullExpression => &[Part {
            role: Role::Expression,
            count: Count::One,
            class: Class::Expression,
        }],
        AstType::TSInstantiationExpression => &[
            Part {
                role: Role::Expression,
                count: Count::One,
                class: Class::Expression,
            },
            Part {
                role: Role::TypeArguments,
                count: Count::AtMostOne,
                class: Class::Only(AstType::TSTypeParameterInstantiation),
            },
        ],
        AstType::JSXElement => &[
            Part {
                role: Role::Opening,
                count: Count::One,
                class: Class::Only(AstType::JSXOpeningElement),
            },
            Part {
                role: Role::Children,
                count: Count::AnyNumber,
                class: Class::JsxChild,
            },
            Part {
                role: Role::Closing,
                count: Count::AtMostOne,
                class: Class::Only(AstType::JSXClosingElement),
            },
        ],
        AstType::JSXFragment => &[
            Part {
                role: Role::Opening,
                count: Count::One,
                class: Class::Only(AstType::JSXOpeningFragment),
            },
            Part {
                role: Role::Children,
                count: Count::AnyNumber,
                class: Class::JsxChild,
            },
            Part {
                role: Role::Closing,
                count: Count::One,
                class: Class::Only(AstType::JSXClosingFragment),
            },
        ],
        AstType::JSXOpeningElement => &[
            Part {
                role: Role::Name,
                count: Count::One,
                class: Class::JsxName,
            },
            Part {
                role: Role::TypeArguments,
                count: Count::AtMostOne,
                class: Class::Only(AstType::TSTypeParameterInstantiation),
            },
            Part {
                role: Role::Attributes,
                count: Count::AnyNumber,
                class: Class::JsxAttributeItem,
            },
        ],
        AstType::JSXClosingElement => &[Part {
            role: Role::Name,
            count: Count::One,
            class: Class::JsxName,
        }],
        AstType::JSXOpeningFragment | AstType::JSXClosingFragment | AstType::JSXEmptyExpression =>
            &[],
        AstType::JSXAttribute => &[
            Part {
                role: Role::Name,
                count: Count::One,
                class: Class::JsxAttributeName,
            },
            Part {
                role: Role::Value,
                count: Count::AtMostOne,
                class: Class::JsxAttributeValue,
            },
        ],
        AstType::JSXSpreadAttribute => &[Part {
            role: Role::Argument,
            count: Count::One,
            class: Class::Expression,
        }],
        AstType::JSXExpressionContainer => &[Part {
            role: Role::Expression,
            count: Count::One,
            class: Class::JsxContent,
        }],
        AstType::JSXSpreadChild => &[Part {
            role: Role::Expression,
            count: Count::One,
            class: Class::Expression,
        }],
        AstType::JSXText | AstType::JSXIdentifier => &[],
        AstType::JSXNamespacedName => &[
            Part {
                role: Role::Namespace,
                count: Count::One,
                class: Class::Only(AstType::JSXIdentifier),
            },
            Part {
                role: Role::Name,
                count: Count::One,
                class: Class::Only(AstType::JSXIdentifier),
            },
        ],
        AstType::JSXMemberExpression => &[
            Part {
                role: Role::Object,
                count: Count::One,
                class: Class::JsxObject,
            },
            Part {
                role: Role::Property,
                count: Count::One,
                class: Class::Only(AstType::JSXIdentifier),
            },
        ],
        _ => types::parts(kind),
    }
}
