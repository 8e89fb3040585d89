//! Where imports and exported names lead.
ghost use Rattle.std.specs.Prelude.{◌≡◌, IfOk};
ghost use Rattle.link_search.specs.Targets.{target_names};

use crate::terminal::Terminal;
use std::alloc::{AllocError, Global};

/// Where an import or an exported name leads in one step.
#[derive(Clone, Copy, PartialEq, Eq, Debug)]
pub enum Target {
    /// A name, told by its number, as a module exports it.
    Name(u32, u32),
    /// A terminal.
    End(Terminal),
}

// The names among targets, in order.
pub(crate) fn names_in(alloc: Global, targets: &[Target]) -> Result<Vec<(u32, u32)>, AllocError>
    ensures { IfOk result (λ names. names.items ≡ target_names targets.now) }
{
    let mut names = Vec::new(alloc);
    for target in targets {
        if let Target::Name(module, name) = target {
            names.push((*module, *name))?;
        }
    }
    Ok(names)
}
