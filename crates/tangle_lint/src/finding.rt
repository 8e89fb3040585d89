//! The tangled names of a program.
ghost use Rattle.std.specs.Prelude.{◌≡◌, IfOk};
ghost use Rattle.tangle_model.specs.Tangled.{tangles};

use semantic::{SemanticBuilder, drop_analysis};
use semantic_tree::Program;
use std::alloc::{AllocError, Global};
use tangled_names::{TangledNames, tangled_names};

/// The tangled names of a program: those whose ties in the tables may part from the language's. They are told in order of
/// their first symbols, each with all reasons. The only error is want of memory.
pub fn find_tangled_names(alloc: Global, program: &Program) -> Result<TangledNames, AllocError>
    ensures { IfOk result (λ found. found ≡ tangles program.now) }
{
    let analysis = SemanticBuilder::new().build(alloc, program)?;
    let found = tangled_names(alloc, program, analysis.semantic.scoping());
    drop_analysis(analysis);
    found
}
