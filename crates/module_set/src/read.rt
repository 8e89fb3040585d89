//! From bytes to the modules of a set.
ghost use Rattle.std.specs.Prelude.{◌≡◌, ◌≤◌, List, length, map, IfOk, IfErr};
ghost use Rattle.serde_json.specs.View.{view as data_of};
ghost use Rattle.tree_json.specs.Reading.{value_in};
ghost use Rattle.module_set.specs.declared.error.LinkError.TheVariants.{NotJson};
ghost use Rattle.module_set.specs.declared.modules.Module.{Module};
ghost use Rattle.module_set.specs.Views.{module_seen};
ghost use Rattle.module_set.specs.Outcome.{Gives, IsWantOfMemory, IsReadAs};
ghost use Rattle.module_set.specs.Reading.{IsRead, AreRead, told_at, IsRefusedAt, RefusedFrom, StandsForSet, RefusesSet};

use crate::error::LinkError;
use crate::form::{ModuleText, texts_of};
use crate::modules::{Module, Modules};
use semantic_syntax::Text;
use semantic_tree::TreeError;
use serde_json::Value;
use std::alloc::{AllocError, Global};
use tree_json::read_program;

/// The modules of a set, from its JSON text: `{"modules":[{"name":text,"tree":text},..]}` with exactly these keys, where
/// a tree is the JSON text of a program in either format. Of equal keys the last counts.
///
/// # Errors
/// In this order: `NotJson`; `Shape`, also for more than 4,294,967,294 modules; `Tree` at the first module whose tree is
/// no program. `Memory` may come at any place.
pub fn read_modules(alloc: Global, bytes: &[u8]) -> Result<Modules, LinkError>
    // Which modules are read.
    ensures read { IfOk result (λ modules. StandsForSet bytes.now modules) }
    // Which refusal it is.
    ensures refused { IfErr result (λ e. ¬ IsWantOfMemory e → RefusesSet bytes.now e) }
    // Each set is read.
    ensures complete { (ms : List Module) → StandsForSet bytes.now ms → IsReadAs ms result }
{
    let value = value_of(alloc, bytes)?;
    let texts = texts_of(alloc, &value)?;
    modules_of(alloc, texts.as_slice())
}

/// The value that the bytes are in JSON.
#[tactic(auto, using(tree_json::proofs::Readings::value_in_ok, tree_json::proofs::Readings::value_in_err))]
fn value_of(alloc: Global, bytes: &[u8]) -> Result<Value, LinkError>
    ensures { Gives data_of result (value_in NotJson bytes.now) }
{
    match Value::from_slice(alloc, bytes) {
        Ok(value) => Ok(value),
        Err(e) if e.is_memory() => Err(LinkError::Memory(AllocError)),
        Err(_) => Err(LinkError::NotJson),
    }
}

/// Why a module isn't read, where the reader of trees gives this cause.
fn refusal(number: u32, cause: TreeError) -> LinkError
    ensures { result ≡ told_at number cause }
{
    match cause {
        TreeError::Memory(wanting) => LinkError::Memory(wanting),
        cause => LinkError::Tree(number, cause),
    }
}

/// The module with this number in a set.
fn read_module(alloc: Global, number: u32, text: &ModuleText<'_>) -> Result<Module, LinkError>
    ensures read { IfOk result (λ m. IsRead (module_seen text.now) m) }
    ensures refused { IfErr result
        (λ e. ¬ IsWantOfMemory e → IsRefusedAt number (module_seen text.now) e) }
    ensures complete { (m : Module) → IsRead (module_seen text.now) m → IsReadAs m result }
{
    let name = Text::new(alloc, text.name)?;
    match read_program(alloc, text.tree.as_bytes()) {
        Ok(program) => Ok(Module { name, program }),
        Err(cause) => Err(refusal(number, cause)),
    }
}

/// The modules, in order, or why the first isn't read that isn't.
fn modules_of(alloc: Global, texts: &[ModuleText<'_>]) -> Result<Modules, LinkError>
    requires { length texts.now ≤ 4294967294 }
    ensures read { IfOk result (λ modules. AreRead (map module_seen texts.now) modules) }
    ensures refused { IfErr result
        (λ e. ¬ IsWantOfMemory e → RefusedFrom 0 (map module_seen texts.now) e) }
    ensures complete { (ms : List Module) → AreRead (map module_seen texts.now) ms
        → IsReadAs ms result }
{
    let mut list = Vec::new(alloc);
    for (number, text) in texts.iter().enumerate() {
        let module = read_module(alloc, number as u32, text)?;
        list.push(module)?;
    }
    Ok(Modules::new(list))
}
