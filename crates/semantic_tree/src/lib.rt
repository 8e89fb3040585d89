//! The syntax tree: nodes, the programs that they make, views of them, and comments.
#![tactic(auto)]

pub mod bound_names;
pub mod comment;
pub mod error;
pub mod fault;
pub mod groups;
pub mod inner;
pub mod key_names;
mod kind_counts;
pub mod laws;
pub mod node;
pub mod place;
pub mod program;
pub mod shape;
pub mod sound;
pub mod swap;
pub mod view;

pub use bound_names::BoundNames;
pub use comment::{
    Comment, CommentKind, CommentsRange, comments_range, get_comment_at, has_comments_between,
    is_inside_comment,
};
pub use error::{SpanFault, TreeError};
pub use key_names::StaticPropertyName;
pub use node::{Children, Node};
pub use place::Place;
pub use program::Program;
pub use semantic_kinds::{AstType, Mark, Marks, Role};
pub use view::{AstKind, ChildIter};
