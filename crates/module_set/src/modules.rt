//! The modules of a set.
ghost use Rattle.std.specs.Prelude.{◌≡◌, ◌≤◌, length};

use semantic_syntax::Text;
use semantic_tree::Program;
use std::marker::Model;

/// A module: the name by which specifiers name it, and its tree.
#[derive(Drop)]
pub struct Module {
    pub name: Text,
    pub program: Program,
}

/// How many modules a set may have.
pub const MODULE_LIMIT: usize = 4_294_967_294;

/// The modules of a set, in order; their places from 0 are their numbers. Contracts see their list.
#[derive(Drop)]
pub struct Modules {
    list: Vec<Module>,
}

impl Model for Modules {
    ghost use Rattle.std.specs.Prelude.{List, length, ◌≤◌};
    ghost use Rattle.std.specs.Coded.{codes};
    ghost use Rattle.module_set.specs.declared.modules.Module.{Module};
    ghost use Rattle.module_set.specs.contracts.modules.Module as member;

    ghost Value = { List Module };

    ghost coded = { Prim.hlevel (codes, member.the_row.coded) };

    ghost view = { λ m. m.list.items };

    ghost invariant = { λ m. length m.list.items ≤ 4294967294 };
}

impl Modules {
    // So many modules have numbers.
    pub(crate) fn new(list: Vec<Module>) -> Modules
        requires { length list.items ≤ 4294967294 }
        ensures { result ≡ list.items }
    {
        Modules { list }
    }

    /// The modules, in order. There are no more than have numbers.
    pub fn as_slice(&self) -> &[Module]
        ensures list { result.now ≡ self.now }
        ensures few { length self.now ≤ 4294967294 }
    {
        self.list.as_slice()
    }
}
