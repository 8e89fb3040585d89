//! The way outward from a node, by pairs of child and parent.
ghost use Rattle.std.specs.Prelude.{◌≡◌, ◌∷◌};
ghost use Rattle.std.specs.Iterator.{YieldsFirstBy};
ghost use Rattle.node_store.specs.PathLeft.{path_left};
ghost use Rattle.check_model.specs.Search.{neighbours};
ghost use Rattle.check_context.specs.Shown.{link_shown, links_left};

use node_store::AncestorKinds;
use semantic_tree::AstKind;

/// The nodes from one on that are left on its path, each with its parent.
#[derive(Drop)]
pub struct Links<'n, 'a> {
    child: AstKind<'a>,
    above: AncestorKinds<'n, 'a>,
}

impl<'n, 'a> Links<'n, 'a> {
    /// The way from a node, with the nodes above it.
    pub fn new(child: AstKind<'a>, above: AncestorKinds<'n, 'a>) -> Links<'n, 'a>
        ensures { links_left result ≡ neighbours (child.entry.node.now ∷ path_left above.entry) }
    {
        Links { child, above }
    }

    /// The next node with its parent.
    pub fn next(&mut self) -> Option<(AstKind<'a>, AstKind<'a>)>
        ensures { YieldsFirstBy link_shown links_left self.old result self.new }
    {
        let parent = self.above.next()?;
        let child = self.child;
        self.child = parent;
        Some((child, parent))
    }
}
