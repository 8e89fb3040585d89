//! Why a name is tangled.

/// Why the ties of a name may part from the language's.
#[derive(Clone, Copy, PartialEq, Eq, Debug)]
pub enum Reason {
    /// A function in a block of sloppy code shares its home with another declaration of the name.
    BlockFunction,
    /// A `var` stands in a catch clause whose home has a catch parameter of the name.
    CatchVariable,
    /// It is `arguments`, which functions bind without a declaration.
    Arguments,
    /// The name stands in a `with`.
    With,
    /// A direct call of `eval` may name it.
    Eval,
    /// In TypeScript, a reference of the name is free.
    FreeNamesake,
    /// In TypeScript, a namespace, enum or module that is declared more than once binds it.
    MergedMember,
    /// In TypeScript, a namespace or an alias within one has the name, and so has another symbol: a qualified name may
    /// mean either.
    NamespaceNamesake,
    /// In TypeScript, `infer` declares the name, and it is used where its conditional type doesn't show it.
    InferredName,
    /// In TypeScript, the name is used in type parameters, and a parameter or another variable inside has it.
    HiddenParameter,
    /// In TypeScript, the name is used in an index signature whose parameter has it.
    IndexParameter,
    /// In TypeScript, a function in a block of sloppy code has the name, and so has another symbol.
    SloppyFunction,
    /// In TypeScript, the name is exported as a type, and two symbols have it.
    ExportedType,
    /// In TypeScript, a `var` in a block has the name, and a symbol of it is a variable and a type.
    TypedVariable,
    /// In TypeScript, a function expression has the name as its own, and a type has it.
    TypedFunctionName,
}
