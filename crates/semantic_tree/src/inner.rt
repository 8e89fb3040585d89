//! Expressions without what is wrapped round them.

ghost use Rattle.std.specs.Prelude.{◌≡◌};
ghost use Rattle.semantic_tree.specs.Unwrapped.{without_parentheses, inner_expression};

use crate::groups::{is_parentheses, is_wrapper};
use crate::view::AstKind;
use semantic_kinds::Role;

impl<'a> AstKind<'a> {
    /// The expression without parentheses and the wrappers of TypeScript: `as`, `satisfies`, `<T>x`,
    /// `x!` and `f<T>`.
    pub fn get_inner_expression(self) -> AstKind<'a>
        ensures { result.node.now ≡ inner_expression self.entry.node.now }
    {
        let mut kind = self;
        while is_wrapper(kind.ty()) {
            match kind.child(Role::Expression) {
                Some(inner) => kind = inner,
                None => return kind,
            }
        }
        kind
    }

    /// The expression without parentheses.
    pub fn without_parentheses(self) -> AstKind<'a>
        ensures { result.node.now ≡ without_parentheses self.entry.node.now }
    {
        let mut kind = self;
        while is_parentheses(kind.ty()) {
            match kind.child(Role::Expression) {
                Some(inner) => kind = inner,
                None => return kind,
            }
        }
        kind
    }
}
