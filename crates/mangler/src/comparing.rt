//! Whether tables are others with new names, part by part.
ghost use Rattle.std.specs.Prelude.{◌≡◌, ◌≤◌, ◌<◌, length};
ghost use Rattle.semantic_model.specs.Moment.{ListsBeginWithOwn};
ghost use Rattle.mangle_model.specs.Assignment.{assignment_of};
ghost use Rattle.mangle_model.specs.Tests.{are_renamed};

mod free_names;
mod references;
mod scopes;
mod symbols;
mod values;

use free_names::{are_same_free_names, are_same_pure};
use mangle_names::NewNames;
use references::{are_same_references, are_same_uses};
use scopes::{are_same_bindings, are_same_scopes};
use scoping::Scoping;
use symbols::are_same_symbols;
pub use values::is_same_text;

/// Whether the other tables are the first with the new names.
pub fn are_renamed(names: &NewNames, one: &Scoping, other: &Scoping) -> bool
    requires one { ListsBeginWithOwn one.now }
    requires other { ListsBeginWithOwn other.now }
    ensures { result ≡ are_renamed (assignment_of names.now) one.now other.now }
{
    are_same_scopes(one, other)
        && are_same_bindings(names, one, other)
        && are_same_symbols(names, one, other)
        && are_same_references(one, other)
        && are_same_uses(one, other)
        && are_same_free_names(one, other)
        && are_same_pure(one, other)
}
