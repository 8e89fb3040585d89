//! The result of an analysis.

ghost use Rattle.std.specs.Prelude.{◌≡◌, ◌==◌, ◌<◌, [], length, map, nat_eq, not};
ghost use Rattle.std.specs.Borrow.{sem};
ghost use Rattle.std.specs.Map.{lookup};
ghost use Rattle.std.specs.Option.{option_map, is_some};
ghost use Rattle.std.specs.Str.{chars};
ghost use Rattle.semantic_syntax.specs.Reading.{reference_of, symbol_of, uses_of};
ghost use Rattle.semantic_tree.specs.Children.{node_count};
ghost use Rattle.semantic_tree.specs.CommentIter.{comments_left, shown_comment};
ghost use Rattle.semantic_tree.specs.Comments.{comments_within, comment_at};
ghost use Rattle.semantic_queries.specs.FreeReference.{is_free_at};
ghost use Rattle.semantic_queries.specs.Lending.{LendsScoping};

use crate::global_reference::IsGlobalReference;
use crate::stats::Stats;
use class_table::ClassTable;
use node_store::AstNodes;
use scoping::{NodeTables, ReferencesIter, Scoping};
use semantic_diagnostics::Diagnostics;
use semantic_syntax::{NodeId, ReferenceId, ScopeId, SourceType, Span, SymbolId};
use semantic_tree::{AstKind, Comment, CommentsRange, Program, comment};
use std::alloc::Global;

/// The tables of a program.
#[derive(Drop)]
pub struct Semantic<'a> {
    pub(crate) program: &'a Program,
    pub(crate) scoping: Scoping,
    pub(crate) tables: NodeTables,
    pub(crate) nodes: AstNodes<'a>,
    pub(crate) classes: ClassTable<'a>,
    pub(crate) unused_labels: Vec<NodeId>,
    pub(crate) comments: &'a [Comment],
    pub(crate) irregular_whitespaces: Vec<Span>,
}

/// The tables of a program, and what is wrong in it.
#[derive(Drop)]
pub struct SemanticBuilderReturn<'a> {
    pub semantic: Semantic<'a>,
    pub diagnostics: Diagnostics,
}

/// Puts together what an analysis of the program made, with no irregular whitespace. What it takes is told as it is: that
/// it belongs to the program is what `SemanticBuilder::build` says.
pub fn put_together<'a>(
    alloc: Global,
    program: &'a Program,
    scoping: Scoping,
    tables: NodeTables,
    nodes: AstNodes<'a>,
    classes: ClassTable<'a>,
    unused_labels: Vec<NodeId>,
) -> Semantic<'a>
    ensures program { result.program.now ≡ program.now }
    ensures scoping { result.scoping ≡ scoping }
    ensures tables { result.tables ≡ tables }
    ensures nodes { result.nodes ≡ nodes.entry }
    ensures classes { result.classes ≡ classes.entry }
    ensures labels { result.unused_labels.items ≡ unused_labels.items }
    ensures comments { result.comments.now ≡ program.now.comments }
    ensures whitespace { result.irregular_whitespaces.items ≡ [] }
{
    Semantic {
        program,
        scoping,
        tables,
        nodes,
        classes,
        unused_labels,
        comments: program.comments(),
        irregular_whitespaces: Vec::new(alloc),
    }
}

/// Drops tables, out of line.
fn drop_scoping(_scoping: Scoping) {}

/// Drops an analysis, as the end of its scope does. A function in which a scope of an analysis ends is proved anew to drop
/// each part of it, which takes longer than the most of proofs; one that calls this isn't.
pub fn drop_analysis(analysis: SemanticBuilderReturn<'_>) {
    drop_scoping(analysis.semantic.into_scoping());
}

impl<'a> Semantic<'a> {
    /// Scopes, symbols, bindings and references.
    pub fn scoping(&self) -> &Scoping
        ensures { result.now ≡ self.now.scoping }
    {
        &self.scoping
    }

    /// Scopes, symbols, bindings and references, to be changed.
    pub fn scoping_mut(&mut self) -> &mut Scoping
        ensures* writes_back { sem 𝓛 (LendsScoping self.entry result) }
        ensures value { result.now ≡ self.old.scoping }
    {
        &mut self.scoping
    }

    /// The scopes, symbols, bindings and references alone.
    pub fn into_scoping(self) -> Scoping
        ensures { result ≡ self.entry.scoping }
    {
        let (scoping, _nodes) = self.into_scoping_and_nodes();
        scoping
    }

    /// What belongs to each node.
    pub fn tables(&self) -> &NodeTables
        ensures { result.now ≡ self.now.tables }
    {
        &self.tables
    }

    /// The classes of the program, with their elements and the uses of private names; none where they weren't noted, as
    /// they are by `with_class_table` and with early errors.
    pub fn classes(&self) -> &ClassTable<'a>
        ensures { result.now ≡ self.now.classes }
    {
        &self.classes
    }

    /// The labelled statements that no jump names, in the order in which they end.
    pub fn unused_labels(&self) -> &[NodeId]
        ensures { result.now ≡ self.now.unused_labels.items }
    {
        self.unused_labels.as_slice()
    }

    /// The source of the program.
    pub fn source_text(&self) -> &'a str
        ensures { chars result.now ≡ self.now.program.now.source }
    {
        self.program.source_text()
    }

    /// Goal and language of the program.
    pub fn source_type(&self) -> SourceType
        ensures { result ≡ self.now.program.now.source_type }
    {
        self.program.source_type()
    }

    /// The comments of the program, in order; none once they are cleared.
    pub fn comments(&self) -> &'a [Comment]
        ensures { result.now ≡ self.now.comments.now }
    {
        self.comments
    }

    /// The symbol that a binding identifier or an enum member declares, if any.
    pub fn symbol_of(&self, node: NodeId) -> Option<SymbolId>
        ensures { result ≡ lookup (nat_eq node) self.now.tables.symbols }
    {
        self.tables.symbol_of(node)
    }

    /// The scope that a node opens, if any.
    pub fn scope_of(&self, node: NodeId) -> Option<ScopeId>
        ensures { result ≡ lookup (nat_eq node) self.now.tables.scopes }
    {
        self.tables.scope_of(node)
    }

    /// The reference that an identifier reference is, if any.
    pub fn reference_of(&self, node: NodeId) -> Option<ReferenceId>
        ensures { result ≡ lookup (nat_eq node) self.now.tables.references }
    {
        self.tables.reference_of(node)
    }

    /// The comments that start at one byte or after it, and before another, in order.
    pub fn comments_range(&self, start: u32, end: u32) -> CommentsRange<'_>
        ensures { comments_left result ≡ comments_within start end self.now.comments.now }
    {
        comment::comments_range(self.comments(), start, end)
    }

    /// Whether a comment starts in the span.
    pub fn has_comments_between(&self, span: Span) -> bool
        ensures { result ≡ not (length
            (comments_within span.start span.end self.now.comments.now) == 0) }
    {
        comment::has_comments_between(self.comments(), span)
    }

    /// Whether the byte is in a comment.
    pub fn is_inside_comment(&self, pos: u32) -> bool
        ensures { result ≡ is_some (comment_at pos self.now.comments.now) }
    {
        comment::is_inside_comment(self.comments(), pos)
    }

    /// The comment that the byte is in, if any.
    pub fn get_comment_at(&self, pos: u32) -> Option<&Comment>
        ensures { option_map shown_comment result ≡ comment_at pos self.now.comments.now }
    {
        comment::get_comment_at(self.comments(), pos)
    }

    /// Notes where the source has irregular white space, in place of what was noted.
    pub fn set_irregular_whitespaces(&mut self, spans: Vec<Span>)
        ensures { self.new ≡ record self.old { irregular_whitespaces = spans } }
    {
        self.irregular_whitespaces = spans;
    }

    /// Where the source has irregular white space, as it was noted. After the analysis none is.
    pub fn irregular_whitespaces(&self) -> &[Span]
        ensures { result.now ≡ self.now.irregular_whitespaces.items }
    {
        self.irregular_whitespaces.as_slice()
    }

    /// The scope to which a symbol belongs.
    pub fn symbol_scope(&self, s: SymbolId) -> ScopeId
        requires { s < length self.now.scoping.symbols }
        ensures { result ≡ (symbol_of self.now.scoping s).scope }
    {
        self.scoping.symbol_scope_id(s)
    }

    /// The references of a symbol, in order.
    pub fn symbol_references(&self, s: SymbolId) -> ReferencesIter<'_>
        requires { s < length self.now.scoping.symbols }
        ensures { result ≡ map (reference_of self.now.scoping) (uses_of self.now.scoping s) }
    {
        self.scoping.get_resolved_references(s)
    }

    /// Whether the node is an identifier reference whose reference has no symbol. One whose reference the tables
    /// don't hold is none.
    pub fn is_reference_to_global_variable(&self, ident: AstKind<'_>) -> bool
        ensures { result ≡ is_free_at self.now.scoping self.now.tables ident.entry.node.now }
    {
        ident.is_global_reference(&self.scoping, &self.tables)
    }

    /// The nodes of the program, and the scopes, symbols and references that the tables have now.
    pub fn stats(&self) -> Stats
        ensures { result ≡ record {
          nodes = node_count self.now.program.now.root;
          scopes = length self.now.scoping.scopes;
          symbols = length self.now.scoping.symbols;
          references = length self.now.scoping.references;
        } }
    {
        Stats::new(
            self.program.node_count(),
            self.scoping.scopes_len() as u32,
            self.scoping.symbols_len() as u32,
            self.scoping.references_len() as u32,
        )
    }
}
