//! Kinds of containers.

/// What has declarations of its own in TypeScript.
#[derive(Clone, Copy, PartialEq, Eq, Debug)]
pub enum ContainerKind {
    /// What is global besides the file: what its `global` blocks declare.
    Globals,
    /// A file: a script or a module.
    File,
    /// One block of a namespace or an ambient module, or a `global` block: what it keeps to itself.
    ModuleBlock,
    /// What all blocks of a namespace export.
    NamespaceMembers,
    /// What all blocks of an ambient module export.
    ModuleMembers,
    /// What all `global` blocks export.
    GlobalMembers,
    /// The members of an enum, by all of its declarations.
    EnumMembers,
    /// The name of a function or class expression.
    OwnName,
    /// The type parameters of a function, class, interface, alias or signature, and the key of a mapped type.
    TypeParameters,
    /// The parameters of a function or signature.
    Parameters,
    /// The body of a function.
    Body,
    /// A static block of a class.
    StaticBlock,
    /// A block, a loop, the cases of a `switch`, and what is the body of a `with`.
    Block,
    /// A catch clause.
    CatchClause,
    /// An index signature.
    IndexSignature,
    /// The true part of a conditional type, in which its `infer` declares.
    Inferred,
    /// The other parts of one, in which that isn't seen.
    Condition,
    /// An `infer`, in whose constraint its own name is seen.
    Infer,
}
