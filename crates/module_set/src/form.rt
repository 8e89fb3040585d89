//! The form of a set of modules in JSON: an object with the one key `modules`, a list of objects with a name and the text
//! of a tree.
ghost use Rattle.std.specs.Prelude.{◌≡◌, ◌≤◌, length, map, ok_or, option_map, IfOk, IfSome};
ghost use Rattle.serde_json.specs.View.{view as data_of, items_view};
ghost use Rattle.module_set.specs.declared.error.LinkError.TheVariants.{Shape};
ghost use Rattle.module_set.specs.Views.{module_seen};
ghost use Rattle.module_set.specs.Outcome.{Gives};
ghost use Rattle.module_set.specs.SetForm.{module_in, list_in, set_of_data};

use crate::error::LinkError;
use crate::modules::MODULE_LIMIT;
use serde_json::Value;
use std::alloc::Global;

/// A module as it stands in a set: its name, and the text of its tree.
#[derive(Clone, Copy)]
pub(crate) struct ModuleText<'a> {
    pub name: &'a str,
    pub tree: &'a str,
}

/// The module that a value says, if it is an object with a name and a tree alone.
#[tactic(auto, using(tree_json::proofs::Members::members_len_view), unfolding(tree_json::specs::Top::has_members, tree_json::specs::Top::text_at, tree_json::specs::Top::word_at, tree_json::specs::Form::text_in))]
fn module_of(value: &Value) -> Option<ModuleText<'_>>
    ensures { option_map module_seen result ≡ module_in (data_of value.now) }
{
    if value.as_object()?.len() != 2 {
        return None;
    }
    Some(ModuleText {
        name: value.get("name")?.as_str()?,
        tree: value.get("tree")?.as_str()?,
    })
}

/// The list of an object that has only the key `modules`, if it isn't too long.
#[tactic(auto, using(tree_json::proofs::Members::members_len_view, tree_json::proofs::Readings::items_len_view), unfolding(tree_json::specs::Top::has_members, tree_json::specs::Top::list_at))]
fn list_of(value: &Value) -> Option<&[Value]>
    ensures items { option_map (λ list. items_view list.now) result ≡ list_in (data_of value.now) }
    ensures few { IfSome result (λ list. length list.now ≤ 4294967294) }
{
    if value.as_object()?.len() != 1 {
        return None;
    }
    let list = value.get("modules")?.as_array()?.as_slice();
    if list.len() > MODULE_LIMIT {
        None
    } else {
        Some(list)
    }
}

/// The modules that a value says, each as its text.
pub(crate) fn texts_of(alloc: Global, value: &Value) -> Result<Vec<ModuleText<'_>>, LinkError>
    ensures said { Gives (λ texts. map module_seen texts.items) result
        (ok_or (set_of_data (data_of value.now)) Shape) }
    ensures few { IfOk result (λ texts. length texts.items ≤ 4294967294) }
{
    let Some(list) = list_of(value) else {
        return Err(LinkError::Shape);
    };
    let mut texts = Vec::with_capacity(alloc, list.len())?;
    for value in list {
        let module = module_of(value).ok_or(LinkError::Shape)?;
        texts.push(module)?;
    }
    Ok(texts)
}
