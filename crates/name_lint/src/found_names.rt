//! The names of a program, by its analysis.
ghost use Rattle.std.specs.Prelude.{◌≡◌, IfOk};
ghost use Rattle.semantic_model.specs.NodeTable.{node_tables};
ghost use Rattle.semantic_model.specs.Step.{steps};
ghost use Rattle.semantic_model.specs.TablesOf.{tables_of};
ghost use Rattle.semantic.specs.Shown.{entries};
ghost use Rattle.name_lint.specs.Gathered.{HasGathered};
ghost use Rattle.name_lint.specs.Known.{known_names};
ghost use Rattle.name_lint.specs.Live.{directly_exported, AreUnused};
ghost use Rattle.name_lint.specs.Undeclared.{undeclared};

use crate::id_lists::{ReferenceIdList, SymbolIdList};
use crate::liveness::unused_symbols;
use crate::tree_pass::TreePass;
use crate::undeclared_names::undeclared_names;
use scoping::{NodeTables, Scoping};
use semantic::node_symbols::{default_exported_names, exported_names};
use semantic_syntax::NodeId;
use semantic_tree::Program;
use std::alloc::{AllocError, Global};

/// The symbols of a program that nothing in use uses, and its references to names that nobody declares, both ascending.
#[derive(Drop)]
pub struct NameReport {
    pub unused: SymbolIdList,
    pub undeclared: ReferenceIdList,
}

/// The binding identifiers that exported declarations bind.
fn exports(alloc: Global, program: &Program) -> Result<Vec<NodeId>, AllocError>
    ensures { IfOk result (λ names. names.items ≡ directly_exported (steps program.now)) }
{
    let mut names = exported_names(alloc, program)?;
    let by_default = default_exported_names(alloc, program)?;
    names.extend_from_slice(&by_default)?;
    Ok(names)
}

/// The names of the program with these tables, by what a pass over it gathered. The only error is want of memory.
pub fn names_by(
    alloc: Global,
    program: &Program,
    scoping: &Scoping,
    tables: &NodeTables,
    pass: &TreePass<'_>,
    known: &[String],
) -> Result<NameReport, AllocError>
    requires tables { scoping.now ≡ tables_of program.now }
    requires nodes { tables.now.symbols ≡ entries (node_tables (steps program.now)).symbols }
    requires pass { HasGathered program.now pass.now }
    ensures unused { IfOk result (λ found. AreUnused program.now found.unused) }
    ensures undeclared { IfOk result (λ found. found.undeclared
        ≡ undeclared (known_names known.now) program.now) }
{
    let exported = exports(alloc, program)?;
    let unused = unused_symbols(alloc, scoping, tables, &exported, pass.owners())?;
    let undeclared = undeclared_names(alloc, scoping, pass.references(), known)?;
    Ok(NameReport { unused, undeclared })
}

/// The names of the program with these tables. The only error is want of memory.
pub fn names_in(
    alloc: Global,
    program: &Program,
    scoping: &Scoping,
    tables: &NodeTables,
    known: &[String],
) -> Result<NameReport, AllocError>
    requires tables { scoping.now ≡ tables_of program.now }
    requires nodes { tables.now.symbols ≡ entries (node_tables (steps program.now)).symbols }
    ensures unused { IfOk result (λ found. AreUnused program.now found.unused) }
    ensures undeclared { IfOk result (λ found. found.undeclared
        ≡ undeclared (known_names known.now) program.now) }
{
    let pass = TreePass::over(alloc, program, tables)?;
    names_by(alloc, program, scoping, tables, &pass, known)
}
