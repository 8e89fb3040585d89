//! The terminals of names, which get numbers as they are met.
ghost use Rattle.std.specs.Prelude.{◌≡◌, ◌≤◌, Some, length, slice_get, IfOk, OnOk};
ghost use Rattle.link_search.specs.declared.terminal.Terminal.{Terminal};
ghost use Rattle.link_search.specs.Ends.{Extends, AreApart, EndsAreNumbered, ends_from};

use crate::exports::SetExports;
use crate::terminal::Terminal;
use indexmap::IndexSet;
use std::alloc::{AllocError, Global};

// The terminals to which names lead in one step, each with the number of its name.
#[tactic(auto, using(crate::proofs::Numbers::ends_one, crate::proofs::Numbers::ends_none))]
pub(crate) fn ends_of(
    alloc: Global,
    exports: &SetExports,
    names: &[(u32, u32)],
) -> Result<Vec<(u32, Terminal)>, AllocError>
    requires { length names.now ≤ 4294967295 }
    ensures { IfOk result (λ ends. ends.items ≡ ends_from exports.now 0 names.now) }
{
    let mut ends = Vec::new(alloc);
    for (number, (module, name)) in names.iter().enumerate() {
        if let Some(terminal) = exports.end_from(*module, *name) {
            ends.push((number as u32, terminal))?;
        }
    }
    Ok(ends)
}

// The number of a terminal, which gets one if it has none.
fn number_of(terminals: &mut IndexSet<Terminal>, terminal: Terminal) -> Result<u32, AllocError>
    ensures extends { OnOk result (Extends terminals.old.keys terminals.new.keys) }
    ensures number { IfOk result (λ number. slice_get terminals.new.keys number ≡ Some terminal) }
    ensures apart { OnOk result (AreApart terminals.new.keys) }
{
    let (place, _) = terminals.insert_full(terminal)?;
    match u32::try_from(place) {
        Ok(number) => Ok(number),
        Err(_) => Err(AllocError),
    }
}

// The same ends, with numbers of the terminals.
pub(crate) fn numbered(
    alloc: Global,
    terminals: &mut IndexSet<Terminal>,
    ends: &[(u32, Terminal)],
) -> Result<Vec<(u32, u32)>, AllocError>
    requires { AreApart terminals.old.keys }
    ensures numbers { IfOk result
        (λ numbers. EndsAreNumbered terminals.new.keys numbers.items ends.now) }
    ensures apart { OnOk result (AreApart terminals.new.keys) }
{
    let mut numbers = Vec::new(alloc);
    for (name, terminal) in ends {
        let number = number_of(terminals, *terminal)?;
        numbers.push((*name, number))?;
    }
    Ok(numbers)
}
