//! What is noted of a name.
ghost use Rattle.std.specs.Prelude.{◌≡◌};
ghost use Rattle.tangle_model.specs.Repeated.{is_mention_of, key_of};
ghost use Rattle.tangled_names.specs.Gathered.{noted_of};

use semantic_syntax::Ident;
use tangle_model::What;

/// What is noted of a name, at its home, or of a block at the node that opens its scope.
#[derive(Clone, Copy)]
pub struct Mention<'a> {
    pub what: What,
    pub home: usize,
    pub name: Ident<'a>,
}

/// Whether that is what is noted.
pub fn is_of(mention: &Mention<'_>, what: What) -> bool
    ensures { result ≡ is_mention_of what (noted_of mention.now) }
{
    mention.what == what
}

/// The home for which it counts. Blocks of one name are alike wherever they stand.
pub fn key_home(mention: &Mention<'_>) -> usize
    ensures { result ≡ (key_of (noted_of mention.now)).home }
{
    if mention.what == What::Block {
        0
    } else {
        mention.home
    }
}
