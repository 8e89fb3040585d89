//! What a symbol is, and what its declaration conflicts with.
ghost use Rattle.std.specs.Prelude.{⊤, ◌≡◌, ◌==◌, [], ◌∷◌, codes, not};
ghost use Rattle.std.specs.Int.RustNames.{bit_and, bit_or};
ghost use Rattle.bitflags.specs.Sets.{without};

use bitflags::{Flag, Flags};

/// By which kinds of declarations a symbol is declared: one bit for each.
#[derive(Clone, Copy, PartialEq, Eq, Debug, Default)]
pub struct SymbolFlags {
    bits: u32,
}

impl SymbolFlags {
    /// A `var` or a parameter.
    pub const FunctionScopedVariable: SymbolFlags = SymbolFlags { bits: 1 << 0 };

    /// A `let`, `const` or `using` variable, or a name of a catch pattern.
    pub const BlockScopedVariable: SymbolFlags = SymbolFlags { bits: 1 << 1 };

    /// A lexical variable that is not assigned.
    pub const ConstVariable: SymbolFlags = SymbolFlags { bits: 1 << 2 };

    /// Declared by `class`, as a declaration or as the own name of an expression.
    pub const Class: SymbolFlags = SymbolFlags { bits: 1 << 3 };

    /// A name of a catch clause.
    pub const CatchVariable: SymbolFlags = SymbolFlags { bits: 1 << 4 };

    /// Declared by `function`, as a declaration or as the own name of an expression.
    pub const Function: SymbolFlags = SymbolFlags { bits: 1 << 5 };

    /// An import by value.
    pub const Import: SymbolFlags = SymbolFlags { bits: 1 << 6 };

    /// An import of a type.
    pub const TypeImport: SymbolFlags = SymbolFlags { bits: 1 << 7 };

    /// Declared by `type T = ..`.
    pub const TypeAlias: SymbolFlags = SymbolFlags { bits: 1 << 8 };

    /// Declared by `interface`, as often as one likes.
    pub const Interface: SymbolFlags = SymbolFlags { bits: 1 << 9 };

    /// Declared by `enum` without `const`.
    pub const RegularEnum: SymbolFlags = SymbolFlags { bits: 1 << 10 };

    /// Declared by `const enum`.
    pub const ConstEnum: SymbolFlags = SymbolFlags { bits: 1 << 11 };

    /// A member of an enum.
    pub const EnumMember: SymbolFlags = SymbolFlags { bits: 1 << 12 };

    /// Declared as `<T>`, by `infer T`, or as the key of a mapped type.
    pub const TypeParameter: SymbolFlags = SymbolFlags { bits: 1 << 13 };

    /// A namespace without values.
    pub const NamespaceModule: SymbolFlags = SymbolFlags { bits: 1 << 14 };

    /// A namespace with values.
    pub const ValueModule: SymbolFlags = SymbolFlags { bits: 1 << 15 };

    /// Declared by `declare`.
    pub const Ambient: SymbolFlags = SymbolFlags { bits: 1 << 16 };

    /// The own name of a function expression.
    pub const FunctionExpression: SymbolFlags = SymbolFlags { bits: 1 << 17 };

    /// An `async` or generator function.
    pub const AsyncOrGeneratorFunction: SymbolFlags = SymbolFlags { bits: 1 << 18 };

    /// A variable of either kind.
    pub const Variable: SymbolFlags = SymbolFlags {
        bits: Self::FunctionScopedVariable.bits | Self::BlockScopedVariable.bits,
    };

    /// What has a value.
    pub const Value: SymbolFlags = SymbolFlags {
        bits: Self::Variable.bits
            | Self::Class.bits
            | Self::Function.bits
            | Self::RegularEnum.bits
            | Self::ConstEnum.bits
            | Self::EnumMember.bits
            | Self::ValueModule.bits,
    };

    /// What is a type.
    pub const TypeFlag: SymbolFlags = SymbolFlags {
        bits: Self::Class.bits
            | Self::Interface.bits
            | Self::RegularEnum.bits
            | Self::ConstEnum.bits
            | Self::EnumMember.bits
            | Self::TypeParameter.bits
            | Self::TypeAlias.bits,
    };

    /// What a `var` or a parameter conflicts with.
    pub const FunctionScopedVariableExcludes: SymbolFlags = SymbolFlags {
        bits: Self::Value.bits & !(Self::FunctionScopedVariable.bits | Self::Function.bits),
    };

    /// What a lexical variable conflicts with.
    pub const BlockScopedVariableExcludes: SymbolFlags = SymbolFlags {
        bits: Self::Value.bits,
    };

    /// What a function conflicts with.
    pub const FunctionExcludes: SymbolFlags = SymbolFlags {
        bits: Self::Value.bits & !(Self::Function.bits | Self::ValueModule.bits | Self::Class.bits),
    };

    /// What a class conflicts with.
    pub const ClassExcludes: SymbolFlags = SymbolFlags {
        bits: (Self::Value.bits | Self::TypeAlias.bits)
            & !(Self::ValueModule.bits | Self::Interface.bits | Self::Function.bits),
    };

    /// What an import conflicts with.
    pub const ImportBindingExcludes: SymbolFlags = SymbolFlags {
        bits: Self::Import.bits | Self::TypeImport.bits,
    };

    /// What a type alias conflicts with.
    pub const TypeAliasExcludes: SymbolFlags = SymbolFlags {
        bits: Self::TypeFlag.bits,
    };

    /// What an interface conflicts with.
    pub const InterfaceExcludes: SymbolFlags = SymbolFlags {
        bits: Self::TypeFlag.bits & !(Self::Interface.bits | Self::Class.bits),
    };

    /// What a type parameter conflicts with.
    pub const TypeParameterExcludes: SymbolFlags = SymbolFlags {
        bits: Self::TypeFlag.bits & !Self::TypeParameter.bits,
    };

    /// What an enum conflicts with.
    pub const RegularEnumExcludes: SymbolFlags = SymbolFlags {
        bits: (Self::Value.bits | Self::TypeFlag.bits)
            & !(Self::RegularEnum.bits | Self::ValueModule.bits),
    };

    /// What a `const` enum conflicts with.
    pub const ConstEnumExcludes: SymbolFlags = SymbolFlags {
        bits: (Self::Value.bits | Self::TypeFlag.bits) & !Self::ConstEnum.bits,
    };

    /// What an enum member conflicts with.
    pub const EnumMemberExcludes: SymbolFlags = SymbolFlags {
        bits: Self::EnumMember.bits,
    };

    /// What a namespace with values conflicts with.
    pub const ValueModuleExcludes: SymbolFlags = SymbolFlags {
        bits: Self::Value.bits
            & !(Self::Function.bits
                | Self::Class.bits
                | Self::RegularEnum.bits
                | Self::ValueModule.bits),
    };

    /// A namespace without values conflicts with nothing.
    pub const NamespaceModuleExcludes: SymbolFlags = SymbolFlags { bits: 0 };

    /// What a use by value may mean.
    pub const ByValue: SymbolFlags = SymbolFlags {
        bits: Self::Value.bits | Self::Import.bits,
    };

    /// What a use by type may mean.
    pub const ByType: SymbolFlags = SymbolFlags {
        bits: Self::TypeFlag.bits | Self::Import.bits | Self::TypeImport.bits,
    };

    /// What a use by the type of its value may mean.
    pub const ByValueAsType: SymbolFlags = SymbolFlags {
        bits: Self::ByValue.bits | Self::TypeImport.bits,
    };

    /// What a use as a namespace may mean.
    pub const AsNamespace: SymbolFlags = SymbolFlags {
        bits: Self::NamespaceModule.bits
            | Self::ValueModule.bits
            | Self::RegularEnum.bits
            | Self::ConstEnum.bits
            | Self::Import.bits
            | Self::TypeImport.bits,
    };

    const FLAGS: &'static [Flag<SymbolFlags>] = &[
        Flag {
            name: "FunctionScopedVariable",
            value: SymbolFlags::FunctionScopedVariable,
        },
        Flag {
            name: "BlockScopedVariable",
            value: SymbolFlags::BlockScopedVariable,
        },
        Flag {
            name: "ConstVariable",
            value: SymbolFlags::ConstVariable,
        },
        Flag {
            name: "Class",
            value: SymbolFlags::Class,
        },
        Flag {
            name: "CatchVariable",
            value: SymbolFlags::CatchVariable,
        },
        Flag {
            name: "Function",
            value: SymbolFlags::Function,
        },
        Flag {
            name: "Import",
            value: SymbolFlags::Import,
        },
        Flag {
            name: "TypeImport",
            value: SymbolFlags::TypeImport,
        },
        Flag {
            name: "TypeAlias",
            value: SymbolFlags::TypeAlias,
        },
        Flag {
            name: "Interface",
            value: SymbolFlags::Interface,
        },
        Flag {
            name: "RegularEnum",
            value: SymbolFlags::RegularEnum,
        },
        Flag {
            name: "ConstEnum",
            value: SymbolFlags::ConstEnum,
        },
        Flag {
            name: "EnumMember",
            value: SymbolFlags::EnumMember,
        },
        Flag {
            name: "TypeParameter",
            value: SymbolFlags::TypeParameter,
        },
        Flag {
            name: "NamespaceModule",
            value: SymbolFlags::NamespaceModule,
        },
        Flag {
            name: "ValueModule",
            value: SymbolFlags::ValueModule,
        },
        Flag {
            name: "Ambient",
            value: SymbolFlags::Ambient,
        },
        Flag {
            name: "FunctionExpression",
            value: SymbolFlags::FunctionExpression,
        },
        Flag {
            name: "AsyncOrGeneratorFunction",
            value: SymbolFlags::AsyncOrGeneratorFunction,
        },
    ];

    /// The empty set.
    pub fn empty() -> SymbolFlags
        ensures { result.bits ≡ 0 }
    {
        <SymbolFlags as Flags>::empty()
    }

    /// Whether all of `other` is in this set.
    pub fn contains(self, other: SymbolFlags) -> bool
        ensures { result ≡ (bit_and self.bits other.bits == other.bits) }
    {
        Flags::contains(&self, other)
    }

    /// Whether some of `other` is in this set.
    pub fn intersects(self, other: SymbolFlags) -> bool
        ensures { result ≡ not (bit_and self.bits other.bits == 0) }
    {
        Flags::intersects(&self, other)
    }

    /// The flags of either.
    pub fn union(self, other: SymbolFlags) -> SymbolFlags
        ensures { result.bits ≡ bit_or self.bits other.bits }
    {
        Flags::union(self, other)
    }

    /// The flags of this set without those of `other`.
    pub fn difference(self, other: SymbolFlags) -> SymbolFlags
        ensures { result.bits ≡ without 32 self.bits other.bits }
    {
        Flags::difference(self, other)
    }

    /// Whether no flag is set.
    pub fn is_empty(self) -> bool
        ensures { result ≡ (self.bits == 0) }
    {
        Flags::is_empty(&self)
    }

    /// Whether it is a function.
    pub fn is_function(self) -> bool
        ensures { result ≡ not (bit_and self.bits SymbolFlags.Function.bits == 0) }
    {
        self.intersects(SymbolFlags::Function)
    }

    /// Whether it is a value or an import.
    pub fn is_value(self) -> bool
        ensures { result ≡ not (bit_and self.bits SymbolFlags.ByValue.bits == 0) }
    {
        self.intersects(SymbolFlags::ByValue)
    }

    /// Whether a use by value may mean it.
    pub fn can_be_referenced_by_value(self) -> bool
        ensures { result ≡ not (bit_and self.bits SymbolFlags.ByValue.bits == 0) }
    {
        self.intersects(SymbolFlags::ByValue)
    }

    /// Whether a use by type may mean it.
    pub fn can_be_referenced_by_type(self) -> bool
        ensures { result ≡ not (bit_and self.bits SymbolFlags.ByType.bits == 0) }
    {
        self.intersects(SymbolFlags::ByType)
    }

    /// Whether a use of its value's type may mean it.
    pub fn can_be_referenced_by_value_as_type(self) -> bool
        ensures { result ≡ not (bit_and self.bits SymbolFlags.ByValueAsType.bits == 0) }
    {
        self.intersects(SymbolFlags::ByValueAsType)
    }

    /// Whether a use as a namespace may mean it.
    pub fn can_be_referenced_as_namespace(self) -> bool
        ensures { result ≡ not (bit_and self.bits SymbolFlags.AsNamespace.bits == 0) }
    {
        self.intersects(SymbolFlags::AsNamespace)
    }
}

impl Flags for SymbolFlags {
    type Bits = u32;

    ghost exact = { ⊤ };

    ghost table = { (codes "FunctionScopedVariable", 1) ∷ (codes "BlockScopedVariable", 2) ∷ (codes "ConstVariable", 4) ∷ (codes "Class", 8) ∷ (codes "CatchVariable", 16) ∷ (codes "Function", 32) ∷ (codes "Import", 64) ∷ (codes "TypeImport", 128) ∷ (codes "TypeAlias", 256) ∷ (codes "Interface", 512) ∷ (codes "RegularEnum", 1024) ∷ (codes "ConstEnum", 2048) ∷ (codes "EnumMember", 4096) ∷ (codes "TypeParameter", 8192) ∷ (codes "NamespaceModule", 16384) ∷ (codes "ValueModule", 32768) ∷ (codes "Ambient", 65536) ∷ (codes "FunctionExpression", 131072) ∷ (codes "AsyncOrGeneratorFunction", 262144) ∷ [] };

    ghost set_of = { λ f. f.bits };

    fn flags<'a>() -> &'a [Flag<SymbolFlags>] {
        SymbolFlags::FLAGS
    }

    fn bits(&self) -> u32 {
        self.bits
    }

    fn from_bits_retain(bits: u32) -> SymbolFlags {
        SymbolFlags { bits }
    }
}
