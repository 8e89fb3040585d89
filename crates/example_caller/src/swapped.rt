//! A program, and the same program with two names swapped. What `build` and `swap_names` promise ties both analyses.
ghost use Rattle.std.specs.Prelude.{◌≡◌, codes, IfOk};
ghost use Rattle.semantic_syntax.specs.Tables.{Name};
ghost use Rattle.semantic_tree.specs.Renamed.{swapped_tree};
ghost use Rattle.semantic_model.specs.Swap.{IsSwappable, swapped_tables};
ghost use Rattle.semantic_model.specs.TablesOf.{tables_of};

use scoping::Scoping;
use semantic::{SemanticBuilder, SemanticBuilderReturn};
use semantic_tree::Program;
use std::alloc::{AllocError, Global};

/// The tables of a program.
fn scoping_of(alloc: Global, program: &Program) -> Result<Scoping, AllocError>
    ensures tables { IfOk result (λ t. t ≡ tables_of program.now) }
    ensures names { IfOk result
        (λ t. (a b : Name) → IsSwappable a → IsSwappable b
        → tables_of (swapped_tree a b program.now) ≡ swapped_tables a b t) }
{
    let SemanticBuilderReturn {
        semantic,
        diagnostics,
    } = SemanticBuilder::new().build(alloc, program)?;
    drop(diagnostics);
    Ok(semantic.into_scoping())
}

/// The tables of a program, and those of the program in which `undefined` and `u` are swapped.
pub fn both_tables(alloc: Global, program: &Program) -> Result<(Scoping, Scoping), AllocError>
    ensures { IfOk result (λ both. both.1 ≡ swapped_tables (codes "undefined") (codes "u") both.0) }
{
    let first = scoping_of(alloc, program)?;
    let swapped = program.swap_names(alloc, "undefined", "u")?;
    let second = scoping_of(alloc, &swapped)?;
    Ok((first, second))
}
