//! Spans that lie in a source, on its characters.

ghost use Rattle.std.specs.Prelude.{◌≡◌, IsTrue};
ghost use Rattle.semantic_tree.specs.Sound.{is_sound, begins_with, ends_with, shows, shows_sign, has_good_span, is_boundary};

use crate::node::Node;
use semantic_kinds::{AstType, Mark};
use semantic_syntax::Span;

/// Whether a character begins there, or the source ends.
pub fn is_boundary(source: &str, at: u32) -> bool
    ensures { result ≡ is_boundary source.now at }
{
    let bytes = source.as_bytes();
    let at = at as usize;
    if at >= bytes.len() {
        return at == bytes.len();
    }
    bytes[at] < 0x80 || bytes[at] >= 0xC0
}

/// Whether a span lies in the source, on characters.
pub fn is_sound(source: &str, span: Span) -> bool
    ensures { result ≡ is_sound source.now span }
{
    span.start <= span.end && is_boundary(source, span.start) && is_boundary(source, span.end)
}

/// Whether a span is not empty and begins with this byte.
fn begins_with(source: &str, span: Span, sign: u8) -> bool
    requires { IsTrue (is_sound source.now span) }
    ensures { result ≡ begins_with source.now span sign }
{
    span.start < span.end && source.as_bytes()[span.start as usize] == sign
}

/// Whether a span is not empty and ends with this byte.
fn ends_with(source: &str, span: Span, sign: u8) -> bool
    requires { IsTrue (is_sound source.now span) }
    ensures { result ≡ ends_with source.now span sign }
{
    span.start < span.end && source.as_bytes()[span.end as usize - 1] == sign
}

/// Whether the sign of a JSDoc type stands before it, or behind it where it is marked so.
fn shows(source: &str, node: &Node, sign: u8) -> bool
    requires { IsTrue (is_sound source.now node.now.span) }
    ensures { result ≡ shows source.now node.now sign }
{
    if node.marks.has(Mark::Postfix) {
        ends_with(source, node.span, sign)
    } else {
        begins_with(source, node.span, sign)
    }
}

/// Whether `?` or `!` stands in the source of a JSDoc type.
fn shows_sign(source: &str, node: &Node) -> bool
    requires { IsTrue (is_sound source.now node.now.span) }
    ensures { result ≡ shows_sign source.now node.now.kind node.now }
{
    match node.kind {
        AstType::JSDocNullableType => shows(source, node, b'?'),
        AstType::JSDocNonNullableType => shows(source, node, b'!'),
        _ => true,
    }
}

/// Whether the span of a node fits the source.
pub fn has_good_span(source: &str, node: &Node) -> bool
    ensures { result ≡ has_good_span source.now node.now }
{
    is_sound(source, node.span) && shows_sign(source, node)
}
