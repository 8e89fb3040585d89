//! Sorts of declarations.

/// As what a name is declared.
#[derive(Clone, Copy, PartialEq, Eq, Debug)]
pub enum DeclarationSort {
    /// By `var`.
    Var,
    /// By `let`, `const`, `using`.
    Lexical,
    /// By the declaration of a function.
    Function,
    /// By one in a block of sloppy code, which belongs to the function around.
    BlockFunction,
    /// As a parameter of a function or signature.
    Parameter,
    /// As the parameter of an index signature.
    IndexParameter,
    /// By the parameter of a catch clause.
    CatchName,
    /// By the declaration of a class.
    Class,
    /// As the own name of a function expression.
    FunctionName,
    /// As the own name of a class expression.
    ClassName,
    /// By an import, or by `import =`.
    Import,
    /// By an import of types.
    TypeImport,
    /// By `type`.
    TypeAlias,
    /// By `interface`.
    Interface,
    /// By `enum`.
    Enum,
    /// As a member of an enum.
    EnumMember,
    /// As a type parameter.
    TypeParameter,
    /// As the key of a mapped type.
    MappedKey,
    /// By `infer`.
    Inferred,
    /// By a namespace that has types alone.
    TypeNamespace,
    /// By a namespace that has values.
    ValueNamespace,
}
