//! What statements lead to, and what they count as.

ghost use Rattle.std.specs.Prelude.{◌≡◌, OnOk};
ghost use Rattle.semantic_model.specs.Namespace.{instantiated, const_enum_only};
ghost use Rattle.namespace_states.specs.Led.{nothing_led, with_state, led_to};

use semantic_syntax::NodeId;
use std::alloc::{AllocError, Global};
use std::marker::Model;

/// What statements lead to, and what they count as. Statements are numbered by their ids.
#[derive(Drop)]
pub struct Leads {
    /// Where a statement leads, and the statement, in no order that matters.
    pub backward: Vec<(u32, u32)>,
    /// Those that count as values by themselves.
    pub values: Vec<u32>,
    /// Those that count as `const` enums by themselves.
    pub const_enums: Vec<u32>,
}

impl Model for Leads {
    ghost use Rattle.std.specs.Coded.{codes};
    ghost use Rattle.namespace_states.specs.Led.{Led};

    ghost Value = { Led };

    ghost coded = { Prim.hlevel codes };

    ghost view = { λ l. record { backward = l.backward.items; values = l.values.items; const_enums = l.const_enums.items } };
}

/// The number of a statement.
fn number(id: NodeId) -> u32
    ensures { result ≡ id }
{
    id.index() as u32
}

impl Leads {
    /// Nothing.
    pub(crate) fn new(alloc: Global) -> Leads
        ensures { result ≡ nothing_led }
    {
        Leads {
            backward: Vec::new(alloc),
            values: Vec::new(alloc),
            const_enums: Vec::new(alloc),
        }
    }

    /// A statement leads to another.
    pub(crate) fn lead(&mut self, from: NodeId, to: NodeId) -> Result<(), AllocError>
        ensures { OnOk result (self.new ≡ led_to self.old from to) }
    {
        self.backward.push((number(to), number(from)))?;
        Ok(())
    }

    /// A statement counts as a value.
    pub(crate) fn count_value(&mut self, from: NodeId) -> Result<(), AllocError>
        ensures { OnOk result (self.new ≡ with_state self.old from instantiated) }
    {
        self.values.push(number(from))?;
        Ok(())
    }

    /// A statement counts as a `const` enum.
    pub(crate) fn count_const_enum(&mut self, from: NodeId) -> Result<(), AllocError>
        ensures { OnOk result (self.new ≡ with_state self.old from const_enum_only) }
    {
        self.const_enums.push(number(from))?;
        Ok(())
    }
}
