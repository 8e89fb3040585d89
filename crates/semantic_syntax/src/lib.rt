//! The small values of which syntax trees and their tables are made: ids, spans, texts, sets of flags,
//! references, source types, and the counter of look-ups.
#![tactic(auto)]

pub mod counter;
pub mod element_kind;
pub mod ids;
pub mod node_flags;
pub mod reference_flags;
pub mod references;
pub mod scope_flags;
pub mod source_type;
pub mod spans;
pub mod symbol_flags;
pub mod texts;

pub use counter::Steps;
pub use element_kind::ElementKind;
pub use ids::{ClassId, ElementId, NodeId, ReferenceId, ScopeId, SymbolId};
pub use node_flags::NodeFlags;
pub use reference_flags::ReferenceFlags;
pub use references::{Redeclaration, Reference};
pub use scope_flags::ScopeFlags;
pub use source_type::{Goal, Lang, SourceType};
pub use spans::Span;
pub use symbol_flags::SymbolFlags;
pub use texts::{Ident, Text};
