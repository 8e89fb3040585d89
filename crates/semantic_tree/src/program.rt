//! A whole program: its source, its comments and its tree.

ghost use Rattle.std.specs.Prelude.{◌≡◌, ◌<◌, ◌≤◌, Some, None, IfOk, IfErr, IsOk, length};
ghost use Rattle.std.specs.Option.{option_map};
ghost use Rattle.std.specs.Str.{chars, encode_utf8_all};
ghost use Rattle.semantic_tree.specs.Children.{node_count, numbered_node, single};
ghost use Rattle.semantic_tree.specs.KindCounts.{kind_count};
ghost use Rattle.semantic_kinds.specs.declared.role.Role.TheVariants as role;
ghost use Rattle.semantic_tree.specs.Limits.{room_left, node_limit, comment_limit};
ghost use Rattle.semantic_tree.specs.Tree.{IsNumbered, numbered_tree};
ghost use Rattle.semantic_tree.specs.Renamed.{swapped_tree};
ghost use Rattle.semantic_tree.specs.Shaped.{IsShaped};
ghost use Rattle.semantic_tree.specs.Faults.{first_fault, first_bad_comment, is_too_large, form_fault};
ghost use Rattle.semantic_tree.specs.declared.error.TreeError.TheVariants.{Span};
ghost use Rattle.semantic_tree.specs.declared.error.SpanFault.TheVariants as span;

use crate::comment::Comment;
use crate::error::{SpanFault, TreeError};
use crate::fault::{Check, first_breaking};
use crate::kind_counts::KindCounts;
use crate::node::Node;
use crate::place::Place;
use crate::sound::is_sound;
use crate::swap::Setting;
use crate::view::AstKind;
use semantic_kinds::{AstType, Role};
use semantic_syntax::{SourceType, Text};
use std::alloc::{AllocError, Global};
use std::marker::Model;

/// How many nodes a program may have.
pub const NODE_LIMIT: u32 = 4_294_967_294;

/// How many comments a program may have.
pub const COMMENT_LIMIT: usize = 4_294_967_294;

/// How many bytes the source of a program may have.
pub const SOURCE_LIMIT: usize = 4_294_967_290;

/// A program: a shaped tree whose nodes are numbered in preorder from 0, with its source and comments.
/// Contracts see its source, its type, its comments and its root.
#[derive(Drop)]
pub struct Program {
    source: Text,
    source_type: SourceType,
    comments: Vec<Comment>,
    root: Node,
    nodes: u32,
    kinds: KindCounts,
}

impl Model for Program {
    ghost use Rattle.std.specs.Prelude.{◌≡◌, None};
    ghost use Rattle.semantic_tree.specs.Tree.{Tree, IsNumbered};
    ghost use Rattle.semantic_tree.specs.Children.{node_count};
    ghost use Rattle.semantic_tree.specs.Faults.{first_fault};
    ghost use Rattle.semantic_tree.specs.Children.{single};
    ghost use Rattle.semantic_tree.specs.KindCounts.{AreKindsOf};
    ghost use Rattle.semantic_kinds.specs.declared.role.Role.TheVariants as role;
    ghost use Rattle.std.specs.Coded.{codes};
    ghost use Rattle.semantic_tree.specs.contracts.node.Node as node;
    ghost use Rattle.semantic_tree.specs.contracts.comment.Comment as comment;
    ghost use Rattle.semantic_syntax.specs.contracts.source_type.SourceType as typed;

    ghost Value = { Tree };

    ghost coded = { Prim.hlevel (codes, node.the_row.coded, comment.the_row.coded, typed.the_row.coded) };

    ghost view = { λ p. record { source = p.source; source_type = p.source_type; comments = p.comments.items; root = p.root } };

    ghost invariant = { λ p. (IsNumbered p.root) × (first_fault (record { source = p.source; source_type = p.source_type; comments = p.comments.items; root = p.root }) ≡ None) × (p.nodes ≡ node_count p.root) × (AreKindsOf p.kinds (single role.Root p.root)) };
}

/// The place of the first comment that is not sound or starts before the end of the one before.
fn first_bad_comment(source: &str, comments: &[Comment]) -> Option<u32>
    requires { length comments.now ≤ comment_limit }
    ensures { result ≡ first_bad_comment source.now 0 0 comments.now }
{
    let mut last = 0;
    let mut i = 0;
    for comment in comments {
        if !is_sound(source, comment.span) || comment.span.start < last {
            return Some(i);
        }
        last = comment.span.end;
        i += 1;
    }
    None
}

/// Whether nodes, comments or source are beyond their limits.
fn is_too_large(source: &str, comments: &[Comment], root: &Node) -> bool
    ensures { result ≡ is_too_large source.now comments.now root.now }
{
    root.room_after(NODE_LIMIT).is_none()
        || COMMENT_LIMIT < comments.len()
        || SOURCE_LIMIT < source.len()
}

/// The fault of the first bad comment.
fn comment_fault(source: &str, comments: &[Comment]) -> Option<TreeError>
    requires { length comments.now ≤ comment_limit }
    ensures { result ≡ option_map (λ i. Span (span.Comment i))
        (first_bad_comment source.now 0 0 comments.now) }
{
    let place = first_bad_comment(source, comments)?;
    Some(TreeError::Span(SpanFault::Comment(place)))
}

/// The first fault of a tree that is not too large. The whole tree is passed once; only a tree with a
/// fault is passed again, for the fault that comes first.
fn form_fault(source: &str, comments: &[Comment], root: &Node) -> Option<TreeError>
    requires nodes { node_count root.now ≤ node_limit }
    requires comments { length comments.now ≤ comment_limit }
    ensures { result ≡ form_fault source.now comments.now root.now }
{
    match first_breaking(Check::All(source), Place::root(), root) {
        None => return comment_fault(source, comments),
        Some(_) => {}
    }
    if let Some(id) = first_breaking(Check::Depth, Place::root(), root) {
        return Some(TreeError::TooDeep(id));
    }
    if let Some(id) = first_breaking(Check::Shape, Place::root(), root) {
        return Some(TreeError::Shape(Some(id)));
    }
    if let Some(id) = first_breaking(Check::Spans(source), Place::root(), root) {
        return Some(TreeError::Span(SpanFault::Node(id)));
    }
    comment_fault(source, comments)
}

impl Program {
    /// Numbers the nodes in preorder, and refuses what has a fault: too many nodes, comments or bytes
    /// first, then a node that stands too deep, then a node without its shape, then a bad span, each at
    /// its least place. A tree that is refused is dropped.
    pub fn new(
        _alloc: Global,
        source: Text,
        source_type: SourceType,
        comments: Vec<Comment>,
        root: Node,
    ) -> Result<Program, TreeError>
        ensures ok { IfOk result (λ made.
            made ≡ numbered_tree
            (record {
              source = source;
              source_type = source_type;
              comments = comments.items;
              root = root;
            })) }
        ensures fits { IfOk result (λ made. first_fault made ≡ None) }
        ensures complete { IsShaped
            (numbered_tree
            (record {
              source = source;
              source_type = source_type;
              comments = comments.items;
              root = root;
            })) → IsOk result }
        ensures err { IfErr result (λ error.
            first_fault (numbered_tree
            (record {
              source = source;
              source_type = source_type;
              comments = comments.items;
              root = root;
            })) ≡ Some error) }
    {
        let mut root = root;
        if is_too_large(source.as_str(), comments.as_slice(), &root) {
            return Err(TreeError::TooMany);
        }
        let mut kinds = KindCounts::new();
        let nodes = root.number(0, &mut kinds);
        match form_fault(source.as_str(), comments.as_slice(), &root) {
            Some(fault) => Err(fault),
            None => Ok(Program {
                source,
                source_type,
                comments,
                root,
                nodes,
                kinds,
            }),
        }
    }

    /// The root. A program is shaped, and its nodes are numbered in preorder from 0.
    pub fn root(&self) -> AstKind<'_>
        ensures root { result.node.now ≡ self.now.root }
        ensures numbered { IsNumbered self.now.root }
        ensures shaped { IsShaped self.now }
    {
        AstKind::new(&self.root)
    }

    /// The source, to which spans refer by bytes.
    pub fn source_text(&self) -> &str
        ensures chars { chars result.now ≡ self.now.source }
        ensures bytes { result.now ≡ encode_utf8_all self.now.source }
    {
        self.source.as_str()
    }

    /// What the source was parsed as.
    pub fn source_type(&self) -> SourceType
        ensures { result ≡ self.now.source_type }
    {
        self.source_type
    }

    /// The comments, in their order in the source.
    pub fn comments(&self) -> &[Comment]
        ensures { result.now ≡ self.now.comments }
    {
        self.comments.as_slice()
    }

    /// How many nodes there are.
    pub fn node_count(&self) -> u32
        ensures { result ≡ node_count self.now.root }
    {
        self.nodes
    }

    /// How many nodes of the kind there are.
    pub fn count_of(&self, kind: AstType) -> u32
        ensures { result ≡ kind_count kind (single role.Root self.now.root) }
    {
        self.kinds.of(kind)
    }

    /// The program with two names swapped, neither of them empty: in each binding identifier,
    /// identifier reference and name of an enum member. All else is equal.
    pub fn swap_names(&self, alloc: Global, a: &str, b: &str) -> Result<Program, AllocError>
        requires a { 0 < length a.now }
        requires b { 0 < length b.now }
        ensures { IfOk result (λ made. made ≡ swapped_tree (chars a.now) (chars b.now) self.now) }
    {
        Ok(Program {
            source: Text::new(alloc, self.source.as_str())?,
            source_type: self.source_type,
            comments: Vec::from_slice(alloc, self.comments.as_slice())?,
            root: self
                .root
                .swapped(alloc, Setting::Elsewhere, Role::Root, a, b)?,
            nodes: self.nodes,
            kinds: self.kinds,
        })
    }
}
