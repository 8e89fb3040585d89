//! Why the links of an input are not written.
ghost use Rattle.std.specs.Prelude.{◌≡◌};

use module_set::LinkError;
use report_ends::ReportError;

/// Why the links of an input are not written, or not to their end.
#[derive(Debug, Drop)]
pub(crate) enum LinkFailure {
    /// The input is no set of modules, or they can't be linked, or memory is wanting.
    Refused(LinkError),
    /// An end of the program stopped it, or memory is wanting. A tree that is refused isn't told so.
    Stopped(ReportError),
}

impl From<LinkError> for LinkFailure {
    ghost use Rattle.module_linker.specs.declared.failure.LinkFailure.TheVariants.{Refused};

    ghost from_gives = { λ error failure. failure ≡ Refused error };

    fn from(error: LinkError) -> Self {
        LinkFailure::Refused(error)
    }
}

impl From<ReportError> for LinkFailure {
    ghost use Rattle.module_linker.specs.declared.failure.LinkFailure.TheVariants.{Stopped};

    ghost from_gives = { λ error failure. failure ≡ Stopped error };

    fn from(error: ReportError) -> Self {
        LinkFailure::Stopped(error)
    }
}
