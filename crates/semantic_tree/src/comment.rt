//! Comments of a source, and which of them stand where.

ghost use Rattle.std.specs.Prelude.{◌≡◌, Some, None, not, length, ◌==◌};
ghost use Rattle.std.specs.Option.{option_map, is_some};
ghost use Rattle.std.specs.Iterator.{YieldsFirstBy, item_count};
ghost use Rattle.semantic_tree.specs.Comments.{starts_within, comments_within, covers, comment_at};
ghost use Rattle.semantic_tree.specs.CommentIter.{comments_left, shown_comment};

use semantic_syntax::Span;

/// How a comment is written.
#[derive(Clone, Copy, PartialEq, Eq, Debug)]
pub enum CommentKind {
    /// To the end of its line.
    Line,
    /// Between `/*` and `*/`.
    Block,
}

/// A comment, with its signs.
#[derive(Clone, Copy, PartialEq, Eq, Debug)]
pub struct Comment {
    pub span: Span,
    pub kind: CommentKind,
}

impl Comment {
    /// Whether the comment starts at or after one byte and before another.
    fn starts_within(&self, start: u32, end: u32) -> bool
        ensures { result ≡ starts_within start end self.now }
    {
        start <= self.span.start && self.span.start < end
    }

    /// Whether the byte is in the comment.
    fn covers(&self, pos: u32) -> bool
        ensures { result ≡ covers pos self.now }
    {
        self.span.start <= pos && pos < self.span.end
    }
}

/// The comments of a list that start at or after one byte and before another, in the list's order.
#[derive(Clone, Copy)]
pub struct CommentsRange<'a> {
    left: &'a [Comment],
    start: u32,
    end: u32,
}

impl<'a> Iterator for CommentsRange<'a> {
    type Item = &'a Comment;

    ghost next_gives = { YieldsFirstBy shown_comment comments_left };

    ghost remaining = { item_count comments_left };

    fn next(&mut self) -> Option<&'a Comment> {
        while let Some((comment, rest)) = self.left.split_first() {
            self.left = rest;
            if comment.starts_within(self.start, self.end) {
                return Some(comment);
            }
        }
        None
    }
}

/// The comments of the list whose start is at least `start` and below `end`, in bytes.
pub fn comments_range(list: &[Comment], start: u32, end: u32) -> CommentsRange<'_>
    ensures { comments_left result ≡ comments_within start end list.now }
{
    CommentsRange {
        left: list,
        start,
        end,
    }
}

/// Whether a comment of the list starts in the span.
pub fn has_comments_between(list: &[Comment], span: Span) -> bool
    ensures { result ≡ not (length (comments_within span.start span.end list.now) == 0) }
{
    comments_range(list, span.start, span.end).next().is_some()
}

/// The first comment of the list that the byte is in: it starts at the byte or before it, and ends
/// after it.
pub fn get_comment_at(list: &[Comment], pos: u32) -> Option<&Comment>
    ensures { option_map shown_comment result ≡ comment_at pos list.now }
{
    list.iter().find(|comment| comment.covers(pos))
}

/// Whether the byte is in a comment of the list.
pub fn is_inside_comment(list: &[Comment], pos: u32) -> bool
    ensures { result ≡ is_some (comment_at pos list.now) }
{
    get_comment_at(list, pos).is_some()
}
