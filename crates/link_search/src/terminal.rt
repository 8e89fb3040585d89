//! Where the search ends.

use semantic_syntax::SymbolId;

/// Where the search ends. Modules are told by their numbers, and texts too.
#[derive(Clone, Copy, PartialEq, Eq, Hash, Debug)]
pub enum Terminal {
    /// A symbol of a module.
    Symbol(u32, SymbolId),
    /// The default export of a module, which has no symbol.
    Default(u32),
    /// All that a module exports.
    Namespace(u32),
    /// What a module outside of the set exports: the number of its specifier, and of the name if one is asked for.
    Outside(u32, Option<u32>),
}
