//! The names of modules.
ghost use Rattle.std.specs.Prelude.{◌≡◌, ◌≤◌, [], length, map, IfOk};
ghost use Rattle.tree_json.specs.Views.{characters, IsSpelled};
ghost use Rattle.tree_json.specs.Written.{Each};
ghost use Rattle.link_model.specs.Module.{all_analysed, module_names};
ghost use Rattle.link_model.specs.Refusal.{first_twice};
ghost use Rattle.module_entries.specs.Checks.{Checks};

use crate::name_set::add_name;
use indexmap::IndexSet;
use module_set::{LinkError, Module};
use std::alloc::Global;

/// The names of the modules. Refuses the first module that has the name of an earlier one.
#[tactic(auto, using(crate::proofs::Turns::name_turn, crate::proofs::Turns::name_found, crate::proofs::Turns::names_end, crate::proofs::Turns::named_more, crate::proofs::Turns::named_all))]
pub fn check_names(alloc: Global, list: &[Module]) -> Result<IndexSet<&str>, LinkError>
    requires { length list.now ≤ 4294967294 }
    ensures refusal { Checks (first_twice [] 0 (module_names (all_analysed list.now))) result }
    ensures names { IfOk result (λ names. map characters names.keys
        ≡ module_names (all_analysed list.now)) }
    ensures spelled { IfOk result (λ names. Each IsSpelled names.keys) }
{
    let mut names = IndexSet::new(alloc);
    for (number, module) in list.iter().enumerate() {
        if !add_name(&mut names, module.name.as_str())? {
            return Err(LinkError::Twice(number as u32));
        }
    }
    Ok(names)
}
