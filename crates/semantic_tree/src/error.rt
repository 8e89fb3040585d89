//! Why a tree is no program.

use semantic_syntax::NodeId;
use std::alloc::{AllocError, AllocFailed};
use thiserror::Error;

/// A span that does not lie in the source, on characters, or that lacks its JSDoc mark, or a comment
/// that starts before the end of the one before it.
#[derive(Clone, Copy, PartialEq, Eq, Debug)]
pub enum SpanFault {
    /// The least node with a bad span.
    Node(NodeId),
    /// The place of the least bad comment, from 0.
    Comment(u32),
}

/// Why bytes or a tree are no program. The tree is dropped.
#[derive(Debug, Drop, Error)]
pub enum TreeError {
    /// The bytes are not JSON.
    #[error("not JSON")]
    NotJson,
    /// The top object is not of the form, or this is the least row or node that does not have its shape.
    #[error("not of the shape")]
    Shape(Option<NodeId>),
    /// More nodes, comments or bytes of source than the limits allow.
    #[error("too many nodes or comments, or too long a source")]
    TooMany,
    /// The least node that stands too deep.
    #[error("too deep a node")]
    TooDeep(NodeId),
    /// The least bad span: of a node, or else of a comment.
    #[error("a bad span")]
    Span(SpanFault),
    /// Want of memory.
    #[error("out of memory")]
    Memory(AllocError),
}

impl From<AllocError> for TreeError {
    ghost use Rattle.std.specs.Prelude.{◌≡◌};
    ghost use Rattle.semantic_tree.specs.declared.error.TreeError.TheVariants.{Memory};

    ghost from_gives = { λ refused error. error ≡ Memory refused };

    fn from(refused: AllocError) -> TreeError {
        TreeError::Memory(refused)
    }
}

impl<T: Drop> From<AllocFailed<T>> for TreeError {
    ghost use Rattle.std.specs.Prelude.{◌≡◌, alloc_error};
    ghost use Rattle.semantic_tree.specs.declared.error.TreeError.TheVariants.{Memory};

    ghost from_gives = { λ _ error. error ≡ Memory alloc_error };

    fn from(_refused: AllocFailed<T>) -> TreeError {
        TreeError::Memory(AllocError)
    }
}
