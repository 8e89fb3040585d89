//! Sets of names.
ghost use Rattle.std.specs.Prelude.{◌≡◌, ◌∷◌, ◌++◌, [], true, map, not, is_none, IfOk, OnOk};
ghost use Rattle.std.specs.List.{list_any};
ghost use Rattle.std.specs.Str.{chars, bytes_eq};
ghost use Rattle.link_model.specs.Module.{module_named};
ghost use Rattle.tree_json.specs.Views.{characters, IsSpelled};
ghost use Rattle.tree_json.specs.Written.{Each};

use indexmap::IndexSet;
use std::alloc::AllocError;

/// A text is the UTF-8 form of its characters.
#[tactic(auto, using(tree_json::proofs::Spelled::is_spelled))]
fn spell(text: &str)
    ensures { IsSpelled text.entry }
{}

/// Adds a name, and tells whether it is a new one.
pub fn add_name<'a>(names: &mut IndexSet<&'a str>, name: &'a str) -> Result<bool, AllocError>
    requires { Each IsSpelled names.old.keys }
    ensures fresh { IfOk result (λ fresh. fresh
        ≡ not (list_any (bytes_eq (chars name.now)) (map characters names.old.keys))) }
    ensures added { IfOk result (λ fresh. fresh ≡ true
        → map characters names.new.keys ≡ map characters names.old.keys ++ chars name.now ∷ []) }
    ensures spelled { OnOk result (Each IsSpelled names.new.keys) }
{
    spell(name);
    let fresh = names.insert(name)?;
    Ok(fresh)
}

/// Whether none of the names is this one.
#[tactic(auto, using(tree_json::proofs::Spelled::position_spelled))]
pub fn lacks(names: &IndexSet<&str>, name: &str) -> bool
    requires { Each IsSpelled names.now.keys }
    ensures { result ≡ is_none (module_named (map characters names.now.keys) (chars name.now)) }
{
    spell(name);
    names.get_index_of(&name).is_none()
}
