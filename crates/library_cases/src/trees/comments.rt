//! Which comment stands where.
use semantic_syntax::Span;
use semantic_tree::{
    Comment, CommentKind, comments_range, get_comment_at, has_comments_between, is_inside_comment,
};

#[test]
fn comments_are_found_by_place(rt: HostRuntime) {
    let comment = Comment {
        span: Span::new(2, 5),
        kind: CommentKind::Block,
    };
    let list = [comment];
    for (pos, inside) in [(1, false), (2, true), (4, true), (5, false)] {
        assert_eq!(rt; is_inside_comment(&list, pos), inside, "at {pos}");
        assert_eq!(rt; get_comment_at(&list, pos).is_some(), inside, "at {pos}");
    }
    assert!(rt; has_comments_between(&list, Span::new(2, 3)));
    assert!(rt; comments_range(&list, 3, 9).next().is_none());
}
