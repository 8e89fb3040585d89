//! What modules export, in numbers.
ghost use Rattle.std.specs.Prelude.{◌≡◌, [], ◌∷◌, length, IfOk};
ghost use Rattle.std.specs.Option.{option_to_list};
ghost use Rattle.link_search.specs.Ends.{ends_in};
ghost use Rattle.link_search.specs.Exports.{if_any, passed_on, module_targets, targets_of, StaysWithin};
ghost use Rattle.link_search.specs.Targets.{target_names};

use crate::graph::Ways;
use crate::target::Target;
use crate::terminal::Terminal;
use indexmap::IndexMap;
use std::alloc::{AllocError, Global};

/// What a module exports.
#[derive(Drop)]
pub struct ModuleExports {
    /// Each name that a node exports, by its number, and where it leads, if anywhere.
    pub names: IndexMap<u32, Option<Target>>,
    /// The modules whose names it passes on, all but `default`.
    pub stars: Vec<u32>,
}

/// What the modules of a set export.
#[derive(Drop)]
pub struct SetExports {
    /// The exports of each module, by its number.
    pub modules: Vec<ModuleExports>,
    /// How many names have numbers.
    pub names: usize,
    /// The number of the name `default`.
    pub default_name: u32,
}

// One name of a module.
fn only(alloc: Global, module: u32, name: u32) -> Result<Vec<(u32, u32)>, AllocError>
    ensures { IfOk result (λ names. names.items ≡ («module», name) ∷ []) }
{
    let mut names = Vec::new(alloc);
    names.push((module, name))?;
    Ok(names)
}

// The name as each of these modules exports it.
fn passed_on(alloc: Global, stars: &[u32], name: u32) -> Result<Vec<(u32, u32)>, AllocError>
    ensures { IfOk result (λ names. names.items ≡ target_names (passed_on name stars.now)) }
{
    let mut names = Vec::new(alloc);
    for module in stars {
        names.push((*module, name))?;
    }
    Ok(names)
}

// The terminal that a target is, if it is one.
fn end_in(target: &Option<Target>) -> Option<Terminal>
    ensures { option_to_list result ≡ ends_in (if_any target.now) }
{
    match target {
        Some(Target::End(terminal)) => Some(*terminal),
        Some(Target::Name(_, _)) => None,
        None => None,
    }
}

impl ModuleExports {
    // The names to which a name leads.
    fn names_from(
        &self,
        alloc: Global,
        default_name: u32,
        name: u32,
    ) -> Result<Vec<(u32, u32)>, AllocError>
        ensures { IfOk result (λ names. names.items
            ≡ target_names (module_targets default_name self.now name)) }
    {
        match self.names.get(&name) {
            Some(Some(Target::Name(module, other))) => only(alloc, *module, *other),
            Some(_) => Ok(Vec::new(alloc)),
            None if name == default_name => Ok(Vec::new(alloc)),
            None => passed_on(alloc, self.stars.as_slice(), name),
        }
    }

    // The terminal to which a name leads, if it leads to one.
    #[tactic(auto, using(crate::proofs::Passed::none_passed))]
    fn end_from(&self, default_name: u32, name: u32) -> Option<Terminal>
        ensures { option_to_list result ≡ ends_in (module_targets default_name self.now name) }
    {
        match self.names.get(&name) {
            Some(target) => end_in(target),
            None => None,
        }
    }
}

impl SetExports {
    /// The names to which a name of a module leads in one step.
    pub fn names_from(
        &self,
        alloc: Global,
        module: u32,
        name: u32,
    ) -> Result<Vec<(u32, u32)>, AllocError>
        ensures { IfOk result (λ names. names.items
            ≡ target_names (targets_of self.now («module», name))) }
    {
        if name as usize >= self.names {
            return Ok(Vec::new(alloc));
        }
        match self.modules.get(module as usize) {
            Some(exports) => exports.names_from(alloc, self.default_name, name),
            None => Ok(Vec::new(alloc)),
        }
    }

    /// The terminal to which a name of a module leads in one step, if it leads to one.
    pub fn end_from(&self, module: u32, name: u32) -> Option<Terminal>
        ensures { option_to_list result ≡ ends_in (targets_of self.now («module», name)) }
    {
        if name as usize >= self.names {
            return None;
        }
        match self.modules.get(module as usize) {
            Some(exports) => exports.end_from(self.default_name, name),
            None => None,
        }
    }
}

// From name to name, over exports that lead only to names that there are.
#[derive(Drop)]
pub(crate) struct NameWays<'e> {
    pub exports: &'e SetExports,
    ghost within: { StaysWithin exports.now },
}

impl<'e> Ways for NameWays<'e> {
    ghost leads = { λ w name. target_names (targets_of w.exports.now name) };

    ghost firsts = { λ w. length w.exports.now.modules.items };

    ghost seconds = { λ w. w.exports.now.names };

    fn ways(&self, alloc: Global, pair: (u32, u32)) -> Result<Vec<(u32, u32)>, AllocError> {
        self.exports.names_from(alloc, pair.0, pair.1)
    }
}
