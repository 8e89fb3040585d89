//! The sets of flags that the rules write out.
use semantic_syntax::{ScopeFlags, SymbolFlags};

/// A set of flags, those that the rules write out for it, and those that they take away from these.
const SETS: &[(SymbolFlags, &[SymbolFlags], &[SymbolFlags])] = &[
    (
        SymbolFlags::Value,
        &[
            SymbolFlags::Variable,
            SymbolFlags::Class,
            SymbolFlags::Function,
            SymbolFlags::RegularEnum,
            SymbolFlags::ConstEnum,
            SymbolFlags::EnumMember,
            SymbolFlags::ValueModule,
        ],
        &[],
    ),
    (
        SymbolFlags::TypeFlag,
        &[
            SymbolFlags::Class,
            SymbolFlags::Interface,
            SymbolFlags::RegularEnum,
            SymbolFlags::ConstEnum,
            SymbolFlags::EnumMember,
            SymbolFlags::TypeParameter,
            SymbolFlags::TypeAlias,
        ],
        &[],
    ),
    (
        SymbolFlags::FunctionScopedVariableExcludes,
        &[SymbolFlags::Value],
        &[SymbolFlags::Function, SymbolFlags::FunctionScopedVariable],
    ),
    (
        SymbolFlags::FunctionExcludes,
        &[SymbolFlags::Value],
        &[
            SymbolFlags::Function,
            SymbolFlags::ValueModule,
            SymbolFlags::Class,
        ],
    ),
    (
        SymbolFlags::ClassExcludes,
        &[SymbolFlags::Value, SymbolFlags::TypeAlias],
        &[SymbolFlags::ValueModule, SymbolFlags::Function],
    ),
    (
        SymbolFlags::InterfaceExcludes,
        &[SymbolFlags::TypeFlag],
        &[SymbolFlags::Interface, SymbolFlags::Class],
    ),
    (
        SymbolFlags::TypeParameterExcludes,
        &[SymbolFlags::TypeFlag],
        &[SymbolFlags::TypeParameter],
    ),
    (
        SymbolFlags::RegularEnumExcludes,
        &[SymbolFlags::Value, SymbolFlags::TypeFlag],
        &[SymbolFlags::RegularEnum, SymbolFlags::ValueModule],
    ),
    (
        SymbolFlags::ConstEnumExcludes,
        &[SymbolFlags::Value, SymbolFlags::TypeFlag],
        &[SymbolFlags::ConstEnum],
    ),
    (
        SymbolFlags::ValueModuleExcludes,
        &[SymbolFlags::Value],
        &[
            SymbolFlags::Function,
            SymbolFlags::Class,
            SymbolFlags::RegularEnum,
            SymbolFlags::ValueModule,
        ],
    ),
];

#[test]
fn sets_are_what_the_rules_write(rt: HostRuntime) {
    for (set, written, taken) in SETS {
        let mut union = SymbolFlags::empty();
        for flag in *written {
            union = union.union(*flag);
        }
        for flag in *taken {
            union = union.difference(*flag);
        }
        assert_eq!(rt; *set, union);
    }
    let functions = ScopeFlags::Var.difference(ScopeFlags::TsModuleBlock);
    assert!(rt; functions.is_function());
}
