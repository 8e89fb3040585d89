//! The word `global` of a declaration.
ghost use Rattle.std.specs.Prelude.{◌≡◌};
ghost use Rattle.check_model.specs.Namespaces as rows;
ghost use Rattle.check_context.specs.Handed.{sight, IsHanded};

use check_context::CheckContext;
use memchr::memmem;
use semantic_syntax::Span;
use semantic_tree::AstKind;

/// Where the first word `global` of the node stands, or else the whole node.
pub(crate) fn global_span(kind: AstKind<'_>, ctx: &CheckContext<'_, '_>) -> Span
    requires { IsHanded kind.node.now ctx.now }
    ensures { result ≡ rows.global_span (sight kind.entry.node.now ctx.now) }
{
    let span = kind.span();
    match memmem::find(ctx.bytes_at(span), b"global") {
        Some(at) => Span::sized(span.start + at as u32, 6),
        None => span,
    }
}
