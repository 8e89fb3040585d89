//! Where the imports and exports of all modules lead.
ghost use Rattle.std.specs.Prelude.{◌≡◌, ◌≤◌, [], ◌∷◌, ◌++◌, length, IfOk, OnOk};
ghost use Rattle.link_targets.specs.Denoted.{Grows};
ghost use Rattle.module_linker.specs.SetTold.{places_in, AreSetTargets};

use crate::analysis::module_targets;
use crate::module_targets::ModuleTargets;
use link_search::{ModuleExports, Target};
use module_entries::module_names::ModuleNames;
use module_entries::texts::Texts;
use module_set::Module;
use semantic_syntax::NodeId;
use std::alloc::{AllocError, Global};

/// An import specifier of a set: the number of its module, and its node.
#[derive(Clone, Copy)]
pub(crate) struct ImportPlace {
    pub number: u32,
    pub node: NodeId,
}

/// Where the imports and exports of modules lead.
#[derive(Drop)]
pub(crate) struct SetTargets {
    /// The exports of each module.
    pub exports: Vec<ModuleExports>,
    /// The import specifiers, in order of module and node.
    pub places: Vec<ImportPlace>,
    /// Where each of them leads.
    pub targets: Vec<Target>,
}

impl SetTargets {
    /// Adds the import specifiers of a module.
    fn add_places(&mut self, number: u32, nodes: &[NodeId]) -> Result<(), AllocError>
        ensures exports { OnOk result (self.new.exports ≡ self.old.exports) }
        ensures places { OnOk result
            (self.new.places.items ≡ self.old.places.items ++ places_in number nodes.now) }
        ensures targets { OnOk result (self.new.targets ≡ self.old.targets) }
    {
        for node in nodes {
            self.places.push(ImportPlace {
                number,
                node: *node,
            })?;
        }
        Ok(())
    }

    /// Adds a module.
    fn add(&mut self, number: u32, made: ModuleTargets) -> Result<(), AllocError>
        ensures exports { OnOk result
            (self.new.exports.items ≡ self.old.exports.items ++ made.exports ∷ []) }
        ensures places { OnOk result
            (self.new.places.items ≡ self.old.places.items ++ places_in number made.nodes.items) }
        ensures targets { OnOk result
            (self.new.targets.items ≡ self.old.targets.items ++ made.targets.items) }
    {
        self.add_places(number, &made.nodes)?;
        self.targets.extend_from_slice(&made.targets)?;
        self.exports.push(made.exports)?;
        Ok(())
    }
}

/// Where the imports and exports of all modules lead. Texts that have no numbers get them.
#[tactic(auto, using(link_targets::proofs::Growth::grows_same))]
pub(crate) fn set_targets<'a>(
    alloc: Global,
    names: &ModuleNames<'_>,
    texts: &mut Texts<'a>,
    modules: &'a [Module],
) -> Result<SetTargets, AllocError>
    requires { length modules.now ≤ 4294967294 }
    ensures grows { OnOk result (Grows texts.old texts.new) }
    ensures made { IfOk result (λ made. AreSetTargets names.now texts.new modules.now made) }
{
    let mut made = SetTargets {
        exports: Vec::new(alloc),
        places: Vec::new(alloc),
        targets: Vec::new(alloc),
    };
    for (number, module) in modules.iter().enumerate() {
        let number = number as u32;
        let told = module_targets(alloc, names, texts, number, module)?;
        made.add(number, told)?;
    }
    Ok(made)
}
