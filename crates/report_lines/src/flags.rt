//! The names of flags that are set.
ghost use Rattle.std.specs.Prelude.{ℕ, ◌≡◌, ◌++◌, [], ◌∷◌, OnOk};
ghost use Rattle.report_lines.specs.Pieces.{flags_text, behind_plus};

use crate::line::Line;
use bitflags::Flags;
use std::alloc::AllocError;

// Adds a name, behind a plus if it isn't the first.
fn push_name(line: &mut Line, first: bool, name: &str) -> Result<(), AllocError>
    ensures { OnOk result (line.new ≡ line.old ++ behind_plus first name.now) }
{
    if !first {
        line.push("+")?;
    }
    line.push(name)
}

/// Adds the names of the flags that are set, in the order of their table, joined by plus, or a dash for none.
#[tactic(auto)]
pub fn push_flags<F: Flags + Copy>(line: &mut Line, flags: F) -> Result<(), AllocError>
    requires { F.exact }
    ensures { OnOk result (line.new ≡ line.old ++ flags_text F.table (F.set_of flags)) }
{
    let mut first = true;
    for flag in F::flags() {
        if flags.contains(*flag.value()) {
            push_name(line, first, flag.name())?;
            first = false;
        }
    }
    if first {
        line.push("-")?;
    }
    Ok(())
}
