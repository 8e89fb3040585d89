//! The nodes in which modules and namespaces stand.
ghost use Rattle.std.specs.Prelude.{◌≡◌};
ghost use Rattle.std.specs.Iterator.{YieldsFirstBy};
ghost use Rattle.semantic_tree.specs.ChildIter.{shown};
ghost use Rattle.check_model.specs.Namespaces as rows;
ghost use Rattle.check_context.specs.Handed.{around, IsContext};
ghost use Rattle.type_checks.specs.Places.{places_left};

use check_context::CheckContext;
use node_store::AncestorKinds;
use semantic_tree::AstKind;

/// The nodes that are left on a path, without imports and exports.
#[derive(Drop)]
pub(crate) struct Places<'n, 'a> {
    above: AncestorKinds<'n, 'a>,
}

impl<'n, 'a> Places<'n, 'a> {
    /// The places around the node of the context, innermost first.
    pub(crate) fn around(ctx: &CheckContext<'a, 'n>) -> Places<'n, 'a>
        requires { IsContext ctx.now }
        ensures { places_left result ≡ rows.places (around ctx.now) }
    {
        Places { above: ctx.above() }
    }

    /// The next place outward, past imports and exports.
    pub(crate) fn next(&mut self) -> Option<AstKind<'a>>
        ensures { YieldsFirstBy shown places_left self.old result self.new }
    {
        while let Some(kind) = self.above.next() {
            if !kind.is_module_declaration() {
                return Some(kind);
            }
        }
        None
    }
}
