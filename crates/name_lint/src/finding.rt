//! The names of a program that are unused or undeclared.
ghost use Rattle.std.specs.Prelude.{◌≡◌, IfOk};
ghost use Rattle.name_lint.specs.Known.{known_names};
ghost use Rattle.name_lint.specs.Live.{AreUnused};
ghost use Rattle.name_lint.specs.Undeclared.{undeclared};

use crate::found_names::{NameReport, names_in};
use semantic::{SemanticBuilder, drop_analysis};
use semantic_tree::Program;
use std::alloc::{AllocError, Global};

/// The symbols of the program that nothing in use uses, and its free references to names that are neither declared nor
/// known. A symbol is in use where a reference that does more than write it stands outside of function and class
/// declarations, or in one that is in use itself; where it is exported or only declared, a member of an enum, or the name
/// of a function expression; and where a direct call of `eval` may name it. The only error is want of memory.
pub fn find_names(alloc: Global, p: &Program, known: &[String]) -> Result<NameReport, AllocError>
    ensures unused { IfOk result (λ found. AreUnused p.now found.unused) }
    ensures undeclared { IfOk result (λ found. found.undeclared
        ≡ undeclared (known_names known.now) p.now) }
{
    let analysis = SemanticBuilder::new().build(alloc, p)?;
    let semantic = &analysis.semantic;
    let found = names_in(alloc, p, semantic.scoping(), semantic.tables(), known);
    drop_analysis(analysis);
    found
}
