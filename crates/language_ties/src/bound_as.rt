//! As what a name is bound.

/// As what a name is bound.
#[derive(Clone, Copy, PartialEq, Eq, Debug)]
pub enum BoundAs {
    /// By `var` (ECMA-262, 14.3.2).
    Var,
    /// By `let`, `const`, an import, the declaration of a class, or the pattern of a catch clause (14.3.1, 16.2.2, 15.7, 14.15).
    Lexical,
    /// By the declaration of a function (15.2).
    Function,
    /// As a parameter (15.1).
    Parameter,
    /// As the plain name of a catch clause (14.15).
    CatchName,
    /// As the own name of a function or class expression (15.2.5, 15.7.14).
    OwnName,
}
