//! How a check tells.
ghost use Rattle.check_context.specs.Tells.{TellsMade};

use semantic_diagnostics::{Diagnostic, Diagnostics};
use std::alloc::AllocError;

/// Tells what was made, behind all that was told before; for want of memory nothing.
#[tactic(auto, using(crate::proofs::Telling::telling))]
pub fn tell(made: Result<Diagnostic, AllocError>, out: &mut Diagnostics) -> Result<(), AllocError>
    ensures { TellsMade made result out.old out.new }
{
    out.push(made?)
}
