//! The source under a span, as text.
ghost use Rattle.std.specs.Prelude.{◌≡◌, true};
ghost use Rattle.std.specs.Str.{chars};
ghost use Rattle.semantic_tree.specs.Sound.{is_sound};
ghost use Rattle.check_model.specs.Surroundings.{text_under};
ghost use Rattle.check_context.specs.Handed.{around};

use crate::context::CheckContext;
use semantic_syntax::Span;

impl<'a, 'n> CheckContext<'a, 'n> {
    /// The text of the source under a span.
    #[tactic(auto, using(crate::proofs::SoundSpans::sound))]
    pub fn text_at(&self, span: Span) -> &'a str
        requires { is_sound self.now.source_text.now span ≡ true }
        ensures { chars result.now ≡ text_under (around self.now) span }
    {
        span.source_text(self.source_text)
    }
}
