//! Star exports of modules that are not in a set.
ghost use Rattle.std.specs.Prelude.{◌≡◌, ◌≤◌, length, map};
ghost use Rattle.semantic_tree.specs.ChildIter.{shown};
ghost use Rattle.tree_json.specs.Views.{characters, IsSpelled};
ghost use Rattle.tree_json.specs.Written.{Each};
ghost use Rattle.link_model.specs.Refusal.{unknown, first_unknown};
ghost use Rattle.module_entries.specs.Checks.{Checks};
ghost use Rattle.module_entries.specs.Seen.{stars_seen};

use crate::entries::ModuleEntries;
use crate::entry_texts::source_text;
use crate::name_set::lacks;
use indexmap::IndexSet;
use module_set::LinkError;
use semantic_syntax::NodeId;
use semantic_tree::AstKind;

/// The first star export of a module that has none of the names.
#[tactic(auto, using(crate::proofs::Turns::star_turn, crate::proofs::Turns::star_found, crate::proofs::Turns::stars_end))]
fn first_unknown(names: &IndexSet<&str>, stars: &[AstKind<'_>]) -> Option<NodeId>
    requires { Each IsSpelled names.now.keys }
    ensures { result ≡ unknown (map characters names.now.keys) (map shown stars.now) }
{
    for star in stars {
        if lacks(names, source_text(*star)) {
            return Some(star.node_id());
        }
    }
    None
}

/// Refuses the first star export of a module that has none of the names.
#[tactic(auto, using(crate::proofs::Turns::stars_turn, crate::proofs::Turns::stars_found, crate::proofs::Turns::all_stars_end))]
pub fn check_stars(names: &IndexSet<&str>, entries: &[ModuleEntries<'_>]) -> Result<(), LinkError>
    requires few { length entries.now ≤ 4294967294 }
    requires spelled { Each IsSpelled names.now.keys }
    ensures { Checks (first_unknown (map characters names.now.keys) 0 (map stars_seen entries.now))
        result }
{
    for (number, module) in entries.iter().enumerate() {
        if let Some(node) = first_unknown(names, &module.stars) {
            return Err(LinkError::UnknownStar(number as u32, node));
        }
    }
    Ok(())
}
