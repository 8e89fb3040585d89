//! What the nodes around a place say of the names there.

use semantic_syntax::NodeId;

/// What declares the binding identifiers of a place.
#[derive(Clone, Copy, PartialEq, Eq, Debug)]
pub enum Declarer {
    /// A `var` declaration.
    Var,
    /// The parameter of a catch clause.
    CatchParameter,
    /// A function declaration, whose name it is.
    Function,
    /// Something else.
    Other,
}

/// What the nodes around a place say of the names there.
#[derive(Clone, Copy)]
pub struct Around {
    /// The function, static block, module block or program that takes the variables.
    pub home: NodeId,
    /// Whether the code is strict.
    pub is_strict: bool,
    /// Whether a statement there stands directly in a block or case, or is the body of an `if`.
    pub in_block: bool,
    /// Whether a catch clause of the home holds the place.
    pub in_catch: bool,
    /// Whether a `with` holds the place.
    pub in_with: bool,
    /// What declares the binding identifiers there.
    pub declarer: Declarer,
    /// Whether a block, a loop, a `switch` or a `with` of the home holds the place.
    pub in_inner_block: bool,
    /// The part `extends` of the conditional type directly around; the root where none is.
    pub extends_part: NodeId,
    /// Whether the place is in the part `extends` of the innermost conditional type around.
    pub in_extends: bool,
    /// The outermost part `extends` that holds the place; the root where none does.
    pub extends: NodeId,
    /// The outermost index signature that holds the place; the root where none does.
    pub index_signature: NodeId,
    /// Whether a list of type parameters holds the place.
    pub in_type_parameters: bool,
    /// Whether a name there is exported as a type.
    pub exports_types: bool,
}
