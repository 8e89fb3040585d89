//! Where code is ambient, that is only declared: inside a node marked `declare`, and in a definition file
//! (TypeScript's `NodeFlags.Ambient`).

ghost use Rattle.std.specs.Prelude.{◌≡◌};
ghost use Rattle.semantic_model.specs.Ambient.{ambient_inside, ambient_round};

use semantic_tree::{AstType, Mark, Node, Role};

/// Whether code inside the node is ambient, where it is or isn't around it. The mark on an accessor property
/// makes nothing ambient.
pub fn is_ambient_inside(node: &Node, around: bool) -> bool
    ensures { result ≡ ambient_inside node.now around }
{
    around || (node.marks.has(Mark::Declare) && node.kind != AstType::AccessorProperty)
}

/// Whether code in the child in the role is ambient. A class's or property's own mark doesn't reach its decorators,
/// which stand around it.
pub fn is_ambient_in_child(parent: &Node, around: bool, role: Role) -> bool
    ensures { result ≡ ambient_round parent.now around role }
{
    let keeps = matches!(parent.kind, AstType::Class | AstType::PropertyDefinition)
        && role == Role::Decorators;
    if keeps {
        around
    } else {
        is_ambient_inside(parent, around)
    }
}
