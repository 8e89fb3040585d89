//! The parts of imports and exports.

ghost use Rattle.std.specs.Prelude.{◌≡◌};
ghost use Rattle.semantic_kinds.specs.Parts.{module_parts};

use crate::class::Class;
use crate::kind::AstType;
use crate::part::{Count, Part, expressions};
use crate::role::Role;

/// The parts of a node of the kind, if it is one of imports and exports, else as the headings that follow say.
pub fn parts(kind: AstType) -> &'static [Part]
    ensures { result.now ≡ module_parts kind }
{
    match kind {
        AstType::ImportDeclaration => &[
            Part {
                role: Role::Specifiers,
                count: Count::AnyNumber,
                class: Class::ImportClause,
            },
            Part {
                role: Role::Source,
                count: Count::One,
                class: Class::Only(AstType::StringLiteral),
            },
            Part {
                role: Role::Attributes,
                count: Count::AtMostOne,
                class: Class::Only(AstType::WithClause),
            },
        ],
        AstType::ImportSpecifier => &[
            Part {
                role: Role::Imported,
                count: Count::One,
                class: Class::ModuleName,
            },
            Part {
                role: Role::Local,
                count: Count::One,
                class: Class::Only(AstType::BindingIdentifier),
            },
        ],
        AstType::ImportDefaultSpecifier | AstType::ImportNamespaceSpecifier => &[Part {
            role: Role::Local,
            count: Count::One,
            class: Class::Only(AstType::BindingIdentifier),
        }],
        AstType::WithClause => &[Part {
            role: Role::Entries,
            count: Count::AnyNumber,
            class: Class::Only(AstType::ImportAttribute),
        }],
        AstType::ImportAttribute => &[
            Part {
                role: Role::Key,
                count: Count::One,
                class: Class::ModuleName,
            },
            Part {
                role: Role::Value,
                count: Count::One,
                class: Class::Only(AstType::StringLiteral),
            },
        ],
        AstType::ExportDeclaration => &[Part {
            role: Role::Declaration,
            count: Count::One,
            class: Class::Declaration,
        }],
        AstType::ExportNamedDeclaration => &[Part {
            role: Role::Specifiers,
            count: Count::AnyNumber,
            class: Class::Only(AstType::ExportSpecifier),
        }],
        AstType::ExportFromDeclaration => &[
            Part {
                role: Role::Specifiers,
                count: Count::AnyNumber,
                class: Class::Only(AstType::ExportSpecifier),
            },
            Part {
                role: Role::Source,
                count: Count::One,
                class: Class::Only(AstType::StringLiteral),
            },
            Part {
                role: Role::Attributes,
                count: Count::AtMostOne,
                class: Class::Only(AstType::WithClause),
            },
        ],
        AstType::ExportDefaultDeclaration => &[Part {
            role: Role::Declaration,
            count: Count::One,
            class: Class::DefaultExport,
        }],
        AstType::ExportAllDeclaration => &[
            Part {
                role: Role::Exported,
                count: Count::AtMostOne,
                class: Class::ModuleName,
            },
            Part {
                role: Role::Source,
                count: Count::One,
                class: Class::Only(AstType::StringLiteral),
            },
            Part {
                role: Role::Attributes,
                count: Count::AtMostOne,
                class: Class::Only(AstType::WithClause),
            },
        ],
        AstType::ExportSpecifier => &[
            Part {
                role: Role::Local,
                count: Count::One,
                class: Class::ExportLocal,
            },
            Part {
                role: Role::Exported,
                count: Count::One,
                class: Class::ModuleName,
            },
        ],
        _ => expressions::parts(kind),
    }
}
