//! The parts of names and statements.

ghost use Rattle.std.specs.Prelude.{◌≡◌};
ghost use Rattle.semantic_kinds.specs.Parts.{statement_parts};

use crate::class::Class;
use crate::kind::AstType;
use crate::part::{Count, Part, declarations};
use crate::role::Role;

/// The parts of a node of the kind, if it is one of names and statements, else as the headings that follow say.
pub fn parts(kind: AstType) -> &'static [Part]
    ensures { result.now ≡ statement_parts kind }
{
    match kind {
        AstType::Program => &[
            Part {
                role: Role::Hashbang,
                count: Count::AtMostOne,
                class: Class::Only(AstType::Hashbang),
            },
            Part {
                role: Role::Directives,
                count: Count::AnyNumber,
                class: Class::Only(AstType::Directive),
            },
            Part {
                role: Role::Body,
                count: Count::AnyNumber,
                class: Class::Statement,
            },
        ],
        AstType::Hashbang => &[],
        AstType::Directive => &[Part {
            role: Role::Expression,
            count: Count::One,
            class: Class::Only(AstType::StringLiteral),
        }],
        AstType::BindingIdentifier
        | AstType::IdentifierReference
        | AstType::IdentifierName
        | AstType::LabelIdentifier
        | AstType::PrivateIdentifier => &[],
        AstType::FunctionBody => &[
            Part {
                role: Role::Directives,
                count: Count::AnyNumber,
                class: Class::Only(AstType::Directive),
            },
            Part {
                role: Role::Body,
                count: Count::AnyNumber,
                class: Class::Statement,
            },
        ],
        AstType::SwitchCase => &[
            Part {
                role: Role::Test,
                count: Count::AtMostOne,
                class: Class::Expression,
            },
            Part {
                role: Role::Consequent,
                count: Count::AnyNumber,
                class: Class::Statement,
            },
        ],
        AstType::CatchClause => &[
            Part {
                role: Role::Param,
                count: Count::AtMostOne,
                class: Class::Only(AstType::CatchParameter),
            },
            Part {
                role: Role::Body,
                count: Count::One,
                class: Class::Only(AstType::BlockStatement),
            },
        ],
        AstType::CatchParameter => &[
            Part {
                role: Role::Pattern,
                count: Count::One,
                class: Class::Pattern,
            },
            Part {
                role: Role::Annotation,
                count: Count::AtMostOne,
                class: Class::Only(AstType::TSTypeAnnotation),
            },
        ],
        AstType::BlockStatement => &[Part {
            role: Role::Body,
            count: Count::AnyNumber,
            class: Class::Statement,
        }],
        AstType::EmptyStatement | AstType::DebuggerStatement => &[],
        AstType::ExpressionStatement => &[Part {
            role: Role::Expression,
            count: Count::One,
            class: Class::Expression,
        }],
        AstType::IfStatement => &[
            Part {
                role: Role::Test,
                count: Count::One,
                class: Class::Expression,
            },
            Part {
                role: Role::Consequent,
                count: Count::One,
                class: Class::Statement,
            },
            Part {
                role: Role::Alternate,
                count: Count::AtMostOne,
                class: Class::Statement,
            },
        ],
        AstType::DoWhileStatement => &[
            Part {
                role: Role::Body,
                count: Count::One,
                class: Class::Statement,
            },
            Part {
                role: Role::Test,
                count: Count::One,
                class: Class::Expression,
            },
        ],
        AstType::WhileStatement => &[
            Part {
                role: Role::Test,
                count: Count::One,
                class: Class::Expression,
            },
            Part {
                role: Role::Body,
                count: Count::One,
                class: Class::Statement,
            },
        ],
        AstType::ForStatement => &[
            Part {
                role: Role::Init,
                count: Count::AtMostOne,
                class: Class::ForInit,
            },
            Part {
                role: Role::Test,
                count: Count::AtMostOne,
                class: Class::Expression,
            },
            Part {
                role: Role::Update,
                count: Count::AtMostOne,
                class: Class::Expression,
            },
            Part {
                role: Role::Body,
                count: Count::One,
                class: Class::Statement,
            },
        ],
        AstType::ForInStatement | AstType::ForOfStatement => &[
            Part {
                role: Role::Left,
                count: Count::One,
                class: Class::LoopLeft,
            },
            Part {
                role: Role::Right,
                count: Count::One,
                class: Class::Expression,
            },
            Part {
                role: Role::Body,
                count: Count::One,
                class: Class::Statement,
            },
        ],
        AstType::ContinueStatement | AstType::BreakStatement => &[Part {
            role: Role::Label,
            count: Count::AtMostOne,
            class: Class::Only(AstType::LabelIdentifier),
        }],
        AstType::ReturnStatement => &[Part {
            role: Role::Argument,
            count: Count::AtMostOne,
            class: Class::Expression,
        }],
        AstType::WithStatement => &[
            Part {
                role: Role::Object,
                count: Count::One,
                class: Class::Expression,
            },
            Part {
                role: Role::Body,
                count: Count::One,
                class: Class::Statement,
            },
        ],
        AstType::SwitchStatement => &[
            Part {
                role: Role::Discriminant,
                count: Count::One,
                class: Class::Expression,
            },
            Part {
                role: Role::Cases,
                count: Count::AnyNumber,
                class: Class::Only(AstType::SwitchCase),
            },
        ],
        AstType::LabeledStatement => &[
            Part {
                role: Role::Label,
                count: Count::One,
                class: Class::Only(AstType::LabelIdentifier),
            },
            Part {
                role: Role::Body,
                count: Count::One,
                class: Class::Statement,
            },
        ],
        AstType::ThrowStatement => &[Part {
            role: Role::Argument,
            count: Count::One,
            class: Class::Expression,
        }],
        AstType::TryStatement => &[
            Part {
                role: Role::Block,
                count: Count::One,
                class: Class::Only(AstType::BlockStatement),
            },
            Part {
                role: Role::Handler,
                count: Count::AtMostOne,
                class: Class::Only(AstType::CatchClause),
            },
            Part {
                role: Role::Finalizer,
                count: Count::AtMostOne,
                class: Class::Only(AstType::BlockStatement),
            },
        ],
        _ => declarations::parts(kind),
    }
}
