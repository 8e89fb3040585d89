//! How long the names of a program are as they are written, in bytes. Sums that are too great have no value.
ghost use Rattle.std.specs.Prelude.{◌≡◌, cond, IfSome};
ghost use Rattle.std.specs.Option.{option_map};
ghost use Rattle.semantic_kinds.specs.declared.role.Role.TheVariants as role;
ghost use Rattle.semantic_tree.specs.ChildIter.{shown};
ghost use Rattle.semantic_tree.specs.Views.{children_of};
ghost use Rattle.rename_model.specs.WithName.{is_identifier};
ghost use Rattle.mangle_model.specs.Written.{size_of, sizes, key_size, other_size, own_size, size_written, size_written_below};
ghost use Rattle.mangler.specs.Sizes.{other_size_of};

use crate::comparing::is_same_text;
use semantic_tree::{AstKind, AstType, Mark, Node, Program, Role};

fn size_of(node: AstKind<'_>) -> u64
    ensures { result ≡ size_of node.entry.node.now.text }
{
    node.node().text.as_str().len() as u64
}

/// The sizes of the keys of a property.
fn key_sizes(node: AstKind<'_>) -> Option<u64>
    ensures { IfSome result (λ n. n ≡ sizes (children_of role.Key node.entry.node.now.children)) }
{
    let mut size: u64 = 0;
    for key in node.children(Role::Key) {
        size = size.checked_add(size_of(key))?;
    }
    Some(size)
}

/// The key of a property that isn't in short, and the colon.
fn key_size(node: AstKind<'_>) -> Option<u64>
    ensures { IfSome result (λ n. n ≡ key_size node.entry.node.now) }
{
    if !matches!(
        node.ty(),
        AstType::ObjectProperty | AstType::BindingProperty
    ) {
        return Some(0);
    }
    if node.has_mark(Mark::Shorthand) {
        return Some(0);
    }
    key_sizes(node)?.checked_add(1)
}

/// The other name of an import or export and ` as `, where it isn't the local one.
fn name_and_as(other: Option<AstKind<'_>>, local: Option<AstKind<'_>>) -> Option<u64>
    ensures { IfSome result (λ n. n
        ≡ other_size_of (option_map shown other.entry) (option_map shown local.entry)) }
{
    let (Some(other), Some(local)) = (other, local) else {
        return Some(0);
    };
    if is_same_text(other.text().as_str(), local.text().as_str()) {
        return Some(0);
    }
    size_of(other).checked_add(4)
}

/// The other name of an import or export.
#[tactic(auto, using(crate::proofs::SizesBelow::sizes_of_first))]
fn other_size(node: AstKind<'_>) -> Option<u64>
    ensures { IfSome result (λ n. n ≡ other_size node.entry.node.now) }
{
    match node.ty() {
        AstType::ImportSpecifier => {
            name_and_as(node.child(Role::Imported), node.child(Role::Local))
        }
        AstType::ExportSpecifier => {
            name_and_as(node.child(Role::Exported), node.child(Role::Local))
        }
        _ => Some(0),
    }
}

/// The name of an identifier.
fn name_size(node: AstKind<'_>) -> u64
    ensures { result ≡ cond (is_identifier node.entry.node.now.kind)
        (size_of node.entry.node.now.text) 0 }
{
    if matches!(
        node.ty(),
        AstType::BindingIdentifier | AstType::IdentifierReference
    ) {
        size_of(node)
    } else {
        0
    }
}

/// All that a node itself adds.
fn own_size(node: AstKind<'_>) -> Option<u64>
    ensures { IfSome result (λ n. n ≡ own_size node.entry.node.now) }
{
    let key = key_size(node)?;
    let other = other_size(node)?;
    name_size(node).checked_add(key.checked_add(other)?)
}

/// What all nodes below one add.
#[tactic(auto, using(semantic_tree::specs::Falls::below))]
fn size_below(node: &Node) -> Option<u64>
    ensures { IfSome result (λ n. n ≡ size_written_below node.now.children) }
{
    let mut size: u64 = 0;
    for (_, child) in node.children.as_slice() {
        let own = own_size(AstKind::new(child))?;
        let below = size_below(child)?;
        size = size.checked_add(own)?.checked_add(below)?;
    }
    Some(size)
}

/// How long the names of the program are.
pub fn written_size(program: &Program) -> Option<u64>
    ensures { IfSome result (λ n. n ≡ size_written program.now) }
{
    size_below(program.root().node())
}
