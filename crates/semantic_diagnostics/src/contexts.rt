//! Why a name may not stand where it stands.

/// Why a keyword is reserved (ECMAScript 12.7.2).
#[derive(Clone, Copy, PartialEq, Eq, Debug)]
pub enum ReservedKeywordContext {
    /// The code is strict by a directive.
    StrictMode,
    /// The code is strict since it is a class's.
    Class,
    /// The code is strict since it is a module's.
    Module,
    /// The keyword is `await`, in a module.
    ModuleAwait,
}

/// Why nothing may be assigned to a name (ECMAScript 13.1.1).
#[derive(Clone, Copy, PartialEq, Eq, Debug)]
pub enum UnexpectedIdentifierAssignContext {
    /// The code is strict by a directive.
    StrictMode,
    /// The code is strict since it is a class's.
    Class,
    /// The code is strict since it is a module's.
    Module,
}
