//! The modules that specifiers name.
ghost use Rattle.std.specs.Prelude.{◌≡◌, ◌≤◌, ℕ, List, length, IfOk, OnOk};
ghost use Rattle.std.specs.Str.{chars};
ghost use Rattle.link_model.specs.Module.{module_named};
ghost use Rattle.module_entries.specs.Names.{names_of, number_for, name_noted};

use crate::texts::spell;
use indexmap::IndexMap;
use module_set::Module;
use std::alloc::{AllocError, Global};
use std::marker::Model;

/// The names of the modules of a set, each with the number of the first module that has it. Contracts see the names of
/// all modules, in order.
#[derive(Drop)]
pub struct ModuleNames<'a> {
    modules: &'a [Module],
    numbers: IndexMap<&'a str, u32>,
}

impl<'a> Model for ModuleNames<'a> {
    ghost use Rattle.std.specs.Prelude.{ℕ, List};
    ghost use Rattle.module_entries.specs.Names.{names_of, AreFirsts};

    ghost Value = { List (List ℕ) };

    ghost view = { λ n. names_of n.modules.now };

    ghost invariant = { λ n. AreFirsts (names_of n.modules.now) n.numbers };
}

/// Notes the number of a name, unless one is noted.
fn note<'a>(
    numbers: &mut IndexMap<&'a str, u32>,
    name: &'a str,
    number: u32,
) -> Result<(), AllocError>
    ensures { OnOk result ((text : List ℕ)
        → number_for numbers.new text
        ≡ name_noted name.now number (number_for numbers.old text) text) }
{
    if !numbers.contains_key(&name) {
        numbers.insert(name, number)?;
    }
    Ok(())
}

impl<'a> ModuleNames<'a> {
    /// The names of these modules. Takes time linear in their number.
    pub fn of(alloc: Global, modules: &'a [Module]) -> Result<ModuleNames<'a>, AllocError>
        requires { length modules.now ≤ 4294967294 }
        ensures { IfOk result (λ names. names ≡ names_of modules.now) }
    {
        let mut numbers = IndexMap::new(alloc);
        for (number, module) in modules.iter().enumerate() {
            note(&mut numbers, module.name.as_str(), number as u32)?;
        }
        Ok(ModuleNames { modules, numbers })
    }

    /// The number of the module that a specifier names, if there is one.
    pub fn number_of(&self, source: &str) -> Option<u32>
        ensures { result ≡ module_named self.now (chars source.now) }
    {
        spell(source);
        self.numbers.get(&source).copied()
    }
}
