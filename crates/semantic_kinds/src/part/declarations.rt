//! The parts of declarations and patterns.

ghost use Rattle.std.specs.Prelude.{◌≡◌};
ghost use Rattle.semantic_kinds.specs.Parts.{declaration_parts};

use crate::class::Class;
use crate::kind::AstType;
use crate::part::{Count, Part, modules};
use crate::role::Role;

/// The parts of a node of the kind, if it is one of declarations and patterns, else as the headings that follow say.
pub fn parts(kind: AstType) -> &'static [Part]
    ensures { result.now ≡ declaration_parts kind }
{
    match kind {
        AstType::VariableDeclaration => &[Part {
            role: Role::Declarators,
            count: Count::AtLeastOne,
            class: Class::Only(AstType::VariableDeclarator),
        }],
        AstType::VariableDeclarator => &[
            Part {
                role: Role::Id,
                count: Count::One,
                class: Class::Pattern,
            },
            Part {
                role: Role::Annotation,
                count: Count::AtMostOne,
                class: Class::Only(AstType::TSTypeAnnotation),
            },
            Part {
                role: Role::Init,
                count: Count::AtMostOne,
                class: Class::Expression,
            },
        ],
        AstType::Function => &[
            Part {
                role: Role::Id,
                count: Count::AtMostOne,
                class: Class::Only(AstType::BindingIdentifier),
            },
            Part {
                role: Role::TypeParameters,
                count: Count::AtMostOne,
                class: Class::Only(AstType::TSTypeParameterDeclaration),
            },
            Part {
                role: Role::This,
                count: Count::AtMostOne,
                class: Class::Only(AstType::TSThisParameter),
            },
            Part {
                role: Role::Params,
                count: Count::One,
                class: Class::Only(AstType::FormalParameters),
            },
            Part {
                role: Role::ReturnType,
                count: Count::AtMostOne,
                class: Class::Only(AstType::TSTypeAnnotation),
            },
            Part {
                role: Role::Body,
                count: Count::AtMostOne,
                class: Class::Only(AstType::FunctionBody),
            },
        ],
        AstType::FormalParameters => &[
            Part {
                role: Role::Items,
                count: Count::AnyNumber,
                class: Class::Only(AstType::FormalParameter),
            },
            Part {
                role: Role::Rest,
                count: Count::AtMostOne,
                class: Class::Only(AstType::FormalParameterRest),
            },
        ],
        AstType::FormalParameter => &[
            Part {
                role: Role::Decorators,
                count: Count::AnyNumber,
                class: Class::Only(AstType::Decorator),
            },
            Part {
                role: Role::Pattern,
                count: Count::One,
                class: Class::Pattern,
            },
            Part {
                role: Role::Annotation,
                count: Count::AtMostOne,
                class: Class::Only(AstType::TSTypeAnnotation),
            },
            Part {
                role: Role::Initializer,
                count: Count::AtMostOne,
                class: Class::Expression,
            },
        ],
        AstType::FormalParameterRest => &[
            Part {
                role: Role::Decorators,
                count: Count::AnyNumber,
                class: Class::Only(AstType::Decorator),
            },
            Part {
                role: Role::Rest,
                count: Count::One,
                class: Class::Only(AstType::BindingRestElement),
            },
            Part {
                role: Role::Annotation,
                count: Count::AtMostOne,
                class: Class::Only(AstType::TSTypeAnnotation),
            },
        ],
        AstType::BindingRestElement => &[Part {
            role: Role::Argument,
            count: Count::One,
            class: Class::Pattern,
        }],
        AstType::ObjectPattern => &[
            Part {
                role: Role::Properties,
                count: Count::AnyNumber,
                class: Class::Only(AstType::BindingProperty),
            },
            Part {
                role: Role::Rest,
                count: Count::AtMostOne,
                class: Class::Only(AstType::BindingRestElement),
            },
        ],
        AstType::BindingProperty => &[
            Part {
                role: Role::Key,
                count: Count::One,
                class: Class::Key,
            },
            Part {
                role: Role::Value,
                count: Count::One,
                class: Class::Pattern,
            },
        ],
        AstType::ArrayPattern => &[
            Part {
                role: Role::Elements,
                count: Count::AnyNumber,
                class: Class::Pattern,
            },
            Part {
                role: Role::Rest,
                count: Count::AtMostOne,
                class: Class::Only(AstType::BindingRestElement),
            },
        ],
        AstType::AssignmentPattern => &[
            Part {
                role: Role::Left,
                count: Count::One,
                class: Class::Pattern,
            },
            Part {
                role: Role::Right,
                count: Count::One,
                class: Class::Expression,
            },
        ],
        AstType::Class => &[
            Part {
                role: Role::Decorators,
                count: Count::AnyNumber,
                class: Class::Only(AstType::Decorator),
            },
            Part {
                role: Role::Id,
                count: Count::AtMostOne,
                class: Class::Only(AstType::BindingIdentifier),
            },
            Part {
                role: Role::TypeParameters,
                count: Count::AtMostOne,
                class: Class::Only(AstType::TSTypeParameterDeclaration),
            },
            Part {
                role: Role::Heritage,
                count: Count::AtMostOne,
                class: Class::Expression,
            },
            Part {
                role: Role::TypeArguments,
                count: Count::AtMostOne,
                class: Class::Only(AstType::TSTypeParameterInstantiation),
            },
            Part {
                role: Role::Implements,
                count: Count::AnyNumber,
                class: Class::Only(AstType::TSClassImplements),
            },
            Part {
                role: Role::Body,
                count: Count::One,
                class: Class::Only(AstType::ClassBody),
            },
        ],
        AstType::ClassBody => &[Part {
            role: Role::Body,
            count: Count::AnyNumber,
            class: Class::ClassElement,
        }],
        AstType::MethodDefinition => &[
            Part {
                role: Role::Decorators,
                count: Count::AnyNumber,
                class: Class::Only(AstType::Decorator),
            },
            Part {
                role: Role::Key,
                count: Count::One,
                class: Class::Key,
            },
            Part {
                role: Role::Value,
                count: Count::One,
                class: Class::Only(AstType::Function),
            },
        ],
        AstType::PropertyDefinition | AstType::AccessorProperty => &[
            Part {
                role: Role::Decorators,
                count: Count::AnyNumber,
                class: Class::Only(AstType::Decorator),
            },
            Part {
                role: Role::Key,
                count: Count::One,
                class: Class::Key,
            },
            Part {
                role: Role::Annotation,
                count: Count::AtMostOne,
                class: Class::Only(AstType::TSTypeAnnotation),
            },
            Part {
                role: Role::Value,
                count: Count::AtMostOne,
                class: Class::Expression,
            },
        ],
        AstType::StaticBlock => &[Part {
            role: Role::Body,
            count: Count::AnyNumber,
            class: Class::Statement,
        }],
        AstType::Decorator => &[Part {
            role: Role::Expression,
            count: Count::One,
            class: Class::Expression,
        }],
        _ => modules::parts(kind),
    }
}
