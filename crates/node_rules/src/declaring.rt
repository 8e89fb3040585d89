//! The declarations that statements hold.

ghost use Rattle.std.specs.Prelude.{◌≡◌};
ghost use Rattle.semantic_model.specs.Namespace.{exported};

use semantic_tree::{AstKind, AstType, Role};

/// The declaration that an export holds, or the statement itself.
pub fn exported(statement: AstKind<'_>) -> AstKind<'_>
    ensures { result.node.now ≡ exported statement.entry.node.now }
{
    match statement.ty() {
        AstType::ExportDeclaration | AstType::ExportDefaultDeclaration => {
            match statement.child(Role::Declaration) {
                Some(declaration) => declaration,
                None => statement,
            }
        }
        _ => statement,
    }
}
