//! What is noted of a name at a place.

/// What is noted of a name at a place.
#[derive(Clone, Copy, PartialEq, Eq, Debug)]
pub enum What {
    /// It is declared there.
    Declaration,
    /// It is the name of a plain function in a block of sloppy code.
    BlockFunction,
    /// It is a name of a catch parameter.
    CatchName,
    /// It is declared by `var` in a catch clause.
    VarInCatch,
    /// It is declared by `var`, or used, in a `with`.
    InWith,
    /// It is the name of a namespace, enum or module, whose members are bound there.
    Block,
    /// It is the name of a function in a block, loop, `switch` or `with` of sloppy code.
    InnerFunction,
    /// `infer` declares it in the outermost part `extends` there.
    Inferred,
    /// It is used in an `extends`, or an `infer` declares it that is no part of the `extends` around.
    BesideInfer,
    /// It is the parameter of an index signature.
    IndexParameter,
    /// It is used in an index signature.
    InIndexSignature,
    /// It is used in type parameters.
    InTypeParameters,
    /// It is exported as a type.
    ExportedType,
    /// It is declared by `var` in a block, loop, `switch` or `with`, which the variable passes.
    PassingVariable,
}
