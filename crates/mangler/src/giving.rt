//! Which nodes are given new names, and which names.

ghost use Rattle.std.specs.Prelude.{◌≡◌, ◌&&◌, ◌||◌, not, option_map};
ghost use Rattle.std.specs.Str.{chars};
ghost use Rattle.rename_model.specs.WithName.{is_identifier};
ghost use Rattle.mangle_model.specs.Assignment.{assignment_of};
ghost use Rattle.mangle_model.specs.Mangling.{all_identifiers};
ghost use Rattle.mangle_model.specs.Renamed.{given, new_name};
ghost use Rattle.mangle_model.specs.WithNames.{is_given};
ghost use Rattle.renamer.specs.Told.{told_by};

use mangle_names::NewNames;
use renamer::Analysed;
use semantic_syntax::{NodeId, SymbolId};
use semantic_tree::{AstType, Node};

/// The new name of a symbol, if there is one.
fn new_name(names: &NewNames, symbol: Option<SymbolId>) -> Option<&str>
    ensures { option_map (λ name. chars name.now) result
        ≡ new_name (assignment_of names.now) symbol }
{
    match symbol {
        Some(symbol) => names.get(symbol),
        None => None,
    }
}

/// The new name of the symbol that the node declares, else of the one to which it is tied.
pub fn given<'a>(analysed: &Analysed<'_>, names: &'a NewNames, node: NodeId) -> Option<&'a str>
    ensures { option_map (λ name. chars name.now) result
        ≡ given (assignment_of names.now) (told_by analysed.now) node }
{
    match new_name(names, analysed.symbol_at(node)) {
        Some(name) => Some(name),
        None => new_name(names, analysed.tied_at(node)),
    }
}

/// Whether the node is given a name.
pub fn is_given(analysed: &Analysed<'_>, names: &NewNames, node: NodeId) -> bool
    ensures { result ≡ is_given (given (assignment_of names.now) (told_by analysed.now)) node }
{
    match given(analysed, names, node) {
        Some(_) => true,
        None => false,
    }
}

/// Whether the node is an identifier, if it is given a name.
fn is_identifier_if_given(analysed: &Analysed<'_>, names: &NewNames, node: &Node) -> bool
    ensures { result ≡ (not (is_given
        (given (assignment_of names.now) (told_by analysed.now)) node.now.node_id)
        || is_identifier node.now.kind) }
{
    !is_given(analysed, names, node.node_id)
        || matches!(
            node.kind,
            AstType::BindingIdentifier | AstType::IdentifierReference
        )
}

/// Whether all nodes below one are identifiers, if they are given a name.
#[tactic(auto, using(semantic_tree::specs::Falls::below))]
pub fn are_identifiers(analysed: &Analysed<'_>, names: &NewNames, node: &Node) -> bool
    ensures { result ≡ all_identifiers
        (is_given (given (assignment_of names.now) (told_by analysed.now))) node.now.children }
{
    for (_, child) in node.children.as_slice() {
        if !is_identifier_if_given(analysed, names, child) {
            return false;
        }
        if !are_identifiers(analysed, names, child) {
            return false;
        }
    }
    true
}
