//! Kinds of environments.

/// What an environment is made for.
#[derive(Clone, Copy, PartialEq, Eq, Debug)]
pub enum EnvironmentKind {
    /// A script or a module (ECMA-262, 16.1.7, 16.2.1.6.4).
    Global,
    /// The name of a function expression (15.2.5).
    OwnName,
    /// The parameters of a function, and its variables where they need no environment of their own (10.2.11).
    Parameters,
    /// The same of an arrow, which has no `arguments`.
    ArrowParameters,
    /// What the body of a function declares that has an environment of its own (10.2.11, step 28).
    Body,
    /// A static block of a class (15.7.11).
    StaticBlock,
    /// A block, and the cases of a `switch` (14.2.2, 14.12.4).
    Block,
    /// A function that is the body of an `if` (B.3.3).
    IfBody,
    /// What the head of a loop declares (14.7.4.3, 14.7.5.7).
    Loop,
    /// The parameter of a catch clause (14.15.2).
    Catch,
    /// The name of a class within it (15.7.14).
    Class,
    /// The object of a `with` (14.11.2).
    Object,
}
